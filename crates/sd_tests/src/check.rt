//! The access check: how often it compares an entry of the token, and beside a plain program that tells the definition.
//! Many verdicts stand in `tests/rows/access_check.json`.

ghost use Rattle.std.specs.Prelude.{◌<◌};

use crate::numbers::{Numbers, TYPES, Words, push_acl};
use crate::plain_check::Question;
use sd_access::{Ask, Privileges, check};
use sd_binary::{SdBuf, read};
use sd_core::{EntryKind, Mapping, Sid, Token, rights_from_text};
use sd_sddl::read_sddl;
use std::process::Abort;
use uuid::Uuid;

// Checks a line, and gives how often an entry of the token was compared: at most once for the owner, and once for each
// ACE that is needed. The verdict is that of the definition, and the token stays as it is.
fn compared(
    rt: &(impl Abort + AllocGlobal),
    buf: &mut SdBuf,
    line: &str,
    question: &Question<'_>,
) -> u64 {
    let mut token = Token::new(rt.alloc()).expect(rt, "memory for a token");
    for (sid, kind) in question.entries {
        assert!(rt; token.add(*sid, *kind) == Ok(()));
    }
    token.set_level(question.level);
    let ask = Ask::new(
        question.desired,
        question.maximum,
        question.mapping,
        question.object,
        question.principal_self,
        question.privileges,
    )
    .expect(rt, "a request");
    assert!(rt; read_sddl(line.as_bytes(), None, buf) == Ok(()), "{line}");
    let view = read(buf.bytes()).expect(rt, "a descriptor");
    let (verdict, need) = question.verdict(&view);
    let seen = check(&view, &mut token, &ask);
    let entries = question.entries.len();
    let most = need.saturating_add(1).saturating_mul(entries as u64);
    let is_kept = token.len() == entries && token.level() == question.level;
    let is_sound = token.compared() <= most && is_kept;
    assert!(rt; seen == verdict && is_sound, "{line}");
    token.compared()
}

fn entry_of(rt: &impl Abort, text: &str) -> (Sid, EntryKind) {
    let (rest, kind) = match text.strip_prefix('!') {
        Some(rest) => (rest, EntryKind::DenyOnly),
        None => (text, EntryKind::Enabled),
    };
    let sid = Sid::from_text(rest.as_bytes(), None).expect(rt, "a SID");
    (sid, kind)
}

// Of a file: the fewest and the most comparisons, what is wanted, or 0 for all that is granted, the token, in which `!`
// marks what is deny-only, and the line. An ACE or an owner that decides has to be compared with one entry at least.
const COUNTS: [&str; 19] = [
    "2/4 0x120089 S-1-5-21-1-2-3-1001,!BA D:(A;;FA;;;BA)",
    "2/6 0 !BA,WD D:(D;;FW;;;BA)(A;;FA;;;WD)",
    "2/6 0 !BA,WD D:(A;;FA;;;WD)(D;;FW;;;BA)",
    // MAXIMUM_ALLOWED
    "2/6 0x2000000 !BA,WD D:(A;;FA;;;WD)(D;;FW;;;BA)",
    "1/1 0x60000 S-1-5-21-1-2-3-1001 O:S-1-5-21-1-2-3-1001D:",
    "1/2 0 S-1-5-21-1-2-3-1001 O:S-1-5-21-1-2-3-1001D:(A;;RC;;;OW)",
    "0/1 0 WD D:NO_ACCESS_CONTROL",
    "0/1 0x1000000 WD D:NO_ACCESS_CONTROL",
    "0/1 0 WD D:",
    "2/3 0x3 WD D:(D;;CC;;;WD)(D;;DC;;;WD)",
    "1/2 0x1f01ff WD D:(A;;FR;;;SY)",
    "1/2 0x20000 WD O:WDD:(D;;RC;;;WD)",
    // One ACE is enough.
    "1/2 0x120089 WD D:(A;;FA;;;WD)(A;;FA;;;BA)(A;;FA;;;SY)",
    "1/2 0x80000000 WD D:(A;;GA;;;WD)",
    // An ACE that has none of the rights is compared with nobody.
    "0/0 0x100 WD,BA D:(A;;CC;;;WD)(D;;DC;;;WD)(A;;LC;;;WD)",
    "1/1 0x60000 WD O:WDD:(A;CIIO;CC;;;OW)(AU;SA;CC;;;OW)",
    "1/1 0x20000 !WD O:WDD:",
    "1/1 0x1 PS D:(A;;CC;;;PS)",
    // OWNER RIGHTS stands for nobody where there is no owner.
    "0/0 0x1 OW D:(A;;CC;;;OW)",
];

#[test]
fn compares_as_often_as_it_needs(rt: HostRuntime) {
    let mut buf = SdBuf::new(rt.alloc()).expect(&rt, "memory for a buffer");
    for row in COUNTS {
        let mut words = row.splitn(4, ' ');
        let (least, most) = words
            .next()
            .unwrap_or("")
            .split_once('/')
            .unwrap_or(("", ""));
        let least: Option<u64> = least.parse().ok();
        let most: Option<u64> = most.parse().ok();
        let rights = words.next().unwrap_or("");
        let desired = rights_from_text(rights.as_bytes()).expect(&rt, "rights");
        let mut entries = Vec::new(rt.alloc());
        for text in words.next().unwrap_or("").split(',') {
            assert!(rt; entries.push(entry_of(&rt, text)).is_ok());
        }
        let question = Question {
            entries: &entries,
            desired,
            maximum: desired == 0,
            mapping: Mapping::FILE,
            object: None,
            principal_self: None,
            privileges: Privileges {
                security: false,
                take_ownership: false,
            },
            level: None,
        };
        let line = words.next().unwrap_or("");
        let compared = compared(&rt, &mut buf, line, &question);
        assert!(rt; least <= Some(compared) && Some(compared) <= most, "{row}");
    }
}

// The last two have 9 and 15 numbers.
const TRUSTEES: &str = "WD BA SY AU PS OW S-1-5-21-1-2-3-1001 S-1-5-11-12-13-14-15-16-17-18-19 \
       S-1-5-21-22-23-24-25-26-27-28-29-30-31-32-33-34-35";

const OF_DACLS: Words<'static> = Words {
    kinds: "A D A D OA OD AU ML",
    flags: "  ID IO OICIIO",
    rights: " CC DC CCDCLC RC WD RCWDWO CR FR FW FA GA GR GW GX 0x11f01ff",
    trustees: TRUSTEES,
};

const DACLS: &str = " D:NO_ACCESS_CONTROL D: D: D: D: D: D: D: D: D:";

// Labels, those that are for heirs alone, and SIDs that name no level.
const OF_SACLS: Words<'static> = Words {
    kinds: "ML ML ML ML AU A",
    flags: "   IO OICI OICIIO",
    rights: " NW NR NX NWNR NWNX NRNX NWNRNX 0xfffffff8 0xffffffff",
    trustees: "LW ME MP HI S-1-16-0 S-1-16 S-1-16-4096-1 S-1-5-12288 S-1-16-4294967295",
};

const SACLS: &str = "  S:NO_ACCESS_CONTROL S: S: S: S: S: S:";

const LEVELS: [u32; 9] = [
    0, 4095, 4096, 8191, 8192, 8193, 12288, 4294967294, 4294967295,
];

// 0 asks for the maximum, and so does 0x2000000.
const DESIRED: [u32; 13] = [
    0, 0, 0x1, 0x2, 0x3, 0x60000, 0x120089, 0x1f01ff, 0x80000000, 0x40000001, 0x10000000,
    0x1080000, 0x2000000,
];

fn some_line(rt: &(impl Abort + AllocGlobal), numbers: &mut Numbers) -> String {
    let (part, owner) = match numbers.below(3) {
        0 => ("", ""),
        _ => ("O:", numbers.word_of(TRUSTEES)),
    };
    let line = format!(in rt.alloc(); "{part}{owner}");
    let mut line = line.expect(rt, "memory for a line");
    push_acl(rt, numbers, DACLS, &OF_DACLS, &mut line);
    push_acl(rt, numbers, SACLS, &OF_SACLS, &mut line);
    line
}

// SIDs that no ACE names. All but the last eight have as many numbers as one of `TRUSTEES`, and the same last one. So
// their keys in a token are equal. Those of 9 and 15 numbers differ from it in one number, each in another.
const STRANGERS: &str =
    "S-1-2-0 S-1-5-33-544 S-1-1-18 S-1-1-11 S-1-1-10 S-1-5-4 S-1-5-21-1-2-4-1001 \
       S-1-5-7-12-13-14-15-16-17-18-19 S-1-5-11-7-13-14-15-16-17-18-19 S-1-5-11-12-7-14-15-16-17-18-19 \
       S-1-5-11-12-13-7-15-16-17-18-19 S-1-5-11-12-13-14-7-16-17-18-19 S-1-5-11-12-13-14-15-7-17-18-19 \
       S-1-5-11-12-13-14-15-16-7-18-19 S-1-5-11-12-13-14-15-16-17-7-19 \
       S-1-5-7-22-23-24-25-26-27-28-29-30-31-32-33-34-35 S-1-5-21-7-23-24-25-26-27-28-29-30-31-32-33-34-35 \
       S-1-5-21-22-7-24-25-26-27-28-29-30-31-32-33-34-35 S-1-5-21-22-23-7-25-26-27-28-29-30-31-32-33-34-35 \
       S-1-5-21-22-23-24-7-26-27-28-29-30-31-32-33-34-35 S-1-5-21-22-23-24-25-7-27-28-29-30-31-32-33-34-35 \
       S-1-5-21-22-23-24-25-26-7-28-29-30-31-32-33-34-35 S-1-5-21-22-23-24-25-26-27-7-29-30-31-32-33-34-35 \
       S-1-5-21-22-23-24-25-26-27-28-7-30-31-32-33-34-35 S-1-5-21-22-23-24-25-26-27-28-29-7-31-32-33-34-35 \
       S-1-5-21-22-23-24-25-26-27-28-29-30-7-32-33-34-35 S-1-5-21-22-23-24-25-26-27-28-29-30-31-7-33-34-35 \
       S-1-5-21-22-23-24-25-26-27-28-29-30-31-32-7-34-35 S-1-5-21-22-23-24-25-26-27-28-29-30-31-32-33-7-35 \
       LS NS NU SU BU BG CO CG";

// The entries of a token; one in so many has a SID that ACEs name.
fn some_entries(
    rt: &(impl Abort + AllocGlobal),
    numbers: &mut Numbers,
    count: usize,
    one_in: usize,
) -> Vec<(Sid, EntryKind)>
    requires { 0 < one_in }
{
    let mut entries = Vec::new(rt.alloc());
    for _ in 0..count {
        let words = match numbers.below(one_in) {
            0 => TRUSTEES,
            _ => STRANGERS,
        };
        let (sid, enabled) = entry_of(rt, numbers.word_of(words));
        let kind = numbers.one_of(&[EntryKind::DenyOnly, enabled, enabled, enabled]);
        assert!(rt; entries.push((sid, kind)).is_ok());
    }
    entries
}

// Whoever has these entries asks for some rights on a descriptor.
fn check_some(
    rt: &(impl Abort + AllocGlobal),
    buf: &mut SdBuf,
    numbers: &mut Numbers,
    entries: &[(Sid, EntryKind)],
) {
    let line = some_line(rt, numbers);
    let desired = numbers.one_of(&DESIRED) | numbers.one_of(&[0, 0, 0, 0, 0, 0x2000000]);
    let (principal, _) = entry_of(rt, numbers.word_of(TRUSTEES));
    let question = Question {
        entries,
        desired,
        maximum: desired == 0 || numbers.below(4) == 0,
        mapping: numbers.one_of(&[Mapping::FILE, Mapping::KEY, Mapping::DS]),
        object: Uuid::parse_str(numbers.word_of(TYPES)).ok(),
        principal_self: numbers.one_of(&[None, Some(principal)]),
        privileges: Privileges {
            security: numbers.below(4) == 0,
            take_ownership: numbers.below(4) == 0,
        },
        level: match numbers.below(4) {
            0 => None,
            _ => Some(numbers.one_of(&LEVELS)),
        },
    };
    compared(rt, buf, &line, &question);
}

#[test]
fn agrees_with_the_definition(rt: HostRuntime) {
    let mut buf = SdBuf::new(rt.alloc()).expect(&rt, "memory for a buffer");
    let mut numbers = Numbers { state: 1 };
    for _ in 0..10_000 {
        let count = numbers.below(5);
        let entries = some_entries(&rt, &mut numbers, count, 1);
        check_some(&rt, &mut buf, &mut numbers, &entries);
    }
}

// With blocks of 16 entries and some behind them, and with many blocks.
#[test]
fn agrees_with_the_definition_for_long_tokens(rt: HostRuntime) {
    let mut buf = SdBuf::new(rt.alloc()).expect(&rt, "memory for a buffer");
    let mut numbers = Numbers { state: 2 };
    for _ in 0..500 {
        let count = numbers.below(41);
        let entries = some_entries(&rt, &mut numbers, count, 8);
        check_some(&rt, &mut buf, &mut numbers, &entries);
    }
    for _ in 0..10 {
        let entries = some_entries(&rt, &mut numbers, 300, 60);
        check_some(&rt, &mut buf, &mut numbers, &entries);
    }
}
