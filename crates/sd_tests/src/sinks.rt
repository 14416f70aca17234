//! Texts that are put into a sink whose calls fail in turn: what stands then is a prefix, and no call follows.
ghost use Rattle.std.specs.Prelude.{◌<◌, length, IsTrue};
ghost use Rattle.sd_sink.specs.Sink.{Puts};

use sd_binary::{Part, SdBuf, SdFault, put_layout, read};
use sd_core::{AceKind, Sid, Sink, SinkFault, put_flags, put_guid, put_rights};
use sd_filter::{LineFault, put_fault};
use sd_sddl::{put_explain, put_sddl};
use std::process::Abort;
use uuid::Uuid;

// Keeps what it takes. From one call on the first with a byte fails, of which it takes a few bytes at most.
#[derive(Drop)]
struct FailingSink {
    taken: SdBuf,
    fails_from: u64,
    takes: usize,
    calls: u64,
    // The calls up to the one that failed.
    failed: Option<u64>,
    failures: u64,
}

impl FailingSink {
    fn new(rt: &(impl Abort + AllocGlobal), fails_from: u64, takes: usize) -> Self {
        FailingSink {
            taken: SdBuf::new(rt.alloc()).expect(rt, "memory for a buffer"),
            fails_from,
            takes,
            calls: 0,
            failed: None,
            failures: 0,
        }
    }

    fn is_failing(&self, bytes: &[u8]) -> bool
        ensures { IsTrue result → 0 < length bytes.now }
    {
        !bytes.is_empty() && self.failed.is_none() && self.calls >= self.fails_from
    }

    fn fail(&mut self, bytes: &[u8]) -> Result<(), SinkFault>
        requires { 0 < length bytes.now }
        ensures { Puts (⟦<FailingSink as Sink>⟧.told self.old)
            (⟦<FailingSink as Sink>⟧.told self.new) bytes.now result }
    {
        self.failed = Some(self.calls);
        self.failures = self.failures.saturating_add(1);
        let n = self.takes.min(bytes.len());
        match self.taken.extend(&bytes[..n]) {
            Ok(()) => Err(SinkFault),
            Err(_) => Err(SinkFault),
        }
    }
}

impl Sink for FailingSink {
    ghost use Rattle.std.specs.Prelude.{Some};

    ghost told = { λ s. record { identity = 0; contents = Some s.taken; failures = s.failures; room = 0 } };

    fn put(&mut self, bytes: &[u8]) -> Result<(), SinkFault> {
        self.calls = self.calls.saturating_add(1);
        if self.is_failing(bytes) {
            return self.fail(bytes);
        }
        match self.taken.extend(bytes) {
            Ok(()) => Ok(()),
            Err(_) => {
                self.failures = self.failures.saturating_add(1);
                Err(SinkFault)
            }
        }
    }
}

// Each call fails in turn, until none is left to fail. A failed call takes nothing, one byte or all of its bytes.
fn expect_prefixes<F: Fn(&mut FailingSink) -> Result<(), SinkFault>>(
    rt: &(impl Abort + AllocGlobal),
    text: &[u8],
    put: F,
)
    requires { F.IsAlwaysCallable put }
{
    for takes in [0, 1, usize::MAX] {
        for fails_from in 1..u64::MAX {
            let mut sink = FailingSink::new(rt, fails_from, takes);
            let result = put(&mut sink);
            let taken = sink.taken.bytes();
            if result.is_ok() {
                assert!(rt; sink.failures == 0 && taken == text);
                assert!(rt; fails_from > 1);
                break;
            }
            assert!(rt; sink.failures == 1 && sink.failed == Some(sink.calls));
            assert!(rt; text.starts_with(taken));
        }
    }
}

// The texts are those of MS-DTYP 2.3.4.3, 2.4.2.1 and 2.5.1.1.
#[test]
fn puts_a_prefix_of_a_value(rt: HostRuntime) {
    for text in [
        "S-1-5-21-1-2-3-1001",
        "S-1-5-32-544",
        "S-1-0x000100000000-4294967295-0",
    ] {
        let sid = Sid::from_text(text.as_bytes(), None).expect(&rt, "a SID");
        expect_prefixes(&rt, text.as_bytes(), |sink| sid.put_text(sink));
    }
    let text = "bf967aba-0de6-11d0-a285-00aa003049e2";
    let guid = Uuid::parse_str(text).expect(&rt, "a GUID");
    expect_prefixes(&rt, text.as_bytes(), |sink| put_guid(&guid, sink));
    expect_prefixes(&rt, b"OICINPIOIDSAFA", |sink| put_flags(0xdf, sink));
    for (kind, mask, text) in [
        (AceKind::Allow, 0xf, "CCDCLCSW"),
        (AceKind::Allow, 0x1f01ff, "FA"),
        (AceKind::Deny, 0x100000, "0x100000"),
        (AceKind::Label, 3, "NWNR"),
    ] {
        expect_prefixes(&rt, text.as_bytes(), |sink| put_rights(kind, mask, sink));
    }
}

#[test]
fn puts_a_prefix_of_a_fault(rt: HostRuntime) {
    let parts = SdFault::Overlap(Part::Owner, Part::Group);
    for (fault, text) in [
        (LineFault::TooLong, "error 1 too-long"),
        (
            LineFault::Sd(SdFault::Sid(Part::Owner)),
            "error 9 sid owner",
        ),
        (LineFault::Sd(parts), "error 14 overlap owner group"),
    ] {
        expect_prefixes(&rt, text.as_bytes(), |sink| put_fault(&fault, sink));
    }
}

fn expect_descriptor(
    rt: &(impl Abort + AllocGlobal),
    bytes: &[u8],
    layout: &[u8],
    sddl: &str,
    explanation: &str,
) {
    let view = read(bytes).expect(rt, "a descriptor");
    expect_prefixes(rt, layout, |sink| put_layout(&view, sink));
    expect_prefixes(
        rt,
        sddl.as_bytes(),
        |sink| put_sddl(&view, None, false, sink),
    );
    expect_prefixes(
        rt,
        explanation.as_bytes(),
        |sink| put_explain(&view, None, false, sink),
    );
}

// Its DACL stands first, with twelve spare bytes, and gaps behind and before it (MS-DTYP 2.4.5 and 2.4.6).
const WITH_GAPS: &str = "0100048040000000500000000000000015000000aa02002800010000000000\
     1400ff011f00010100000000000100000000bbbbbbbbbbbbbbbbbbbbbbbbcccccc\
     01020000000000052000000020020000010100000000000512000000\
     0000";

const LAYOUT: &str = "010004801400000024000000000000003000000001020000000000052000000020020000\
     01010000000000051200000002001c000100000000001400ff011f00010100000000000100000000";

const EXPLANATION: &str =
    "control 0x8004 DP SR\nrm 0x00\nowner S-1-5-32-544 BA\ngroup S-1-5-18 SY\ndacl list 1\n\
     dacl 1 A flags none mask 0x001f01ff rights FA sid S-1-1-0 WD\nsacl absent\nend\n";

fn bytes_of(rt: &(impl Abort + AllocGlobal), digits: &str) -> Vec<u8> {
    hex::decode(rt.alloc(), digits.as_bytes()).expect(rt, "bytes")
}

#[test]
fn puts_a_prefix_of_a_descriptor(rt: HostRuntime) {
    let layout = bytes_of(&rt, LAYOUT);
    for digits in [WITH_GAPS, LAYOUT] {
        let bytes = bytes_of(&rt, digits);
        let sddl = "O:BAG:SYD:(A;;FA;;;WD)";
        expect_descriptor(&rt, bytes.as_slice(), layout.as_slice(), sddl, EXPLANATION);
    }
}

// Sixty ACEs for everyone, whose texts are longer than what is gathered.
#[test]
fn puts_a_prefix_of_sixty_aces(rt: HostRuntime) {
    let (ace, text) = ("00001400ff011f00010100000000000100000000", "(A;;FA;;;WD)");
    let aces = ace.repeat(rt.alloc(), 60).expect(&rt, "memory");
    let digits = format!(in rt.alloc();
        "01000480000000000000000000000000140000000200b8043c000000{aces}"
    ).expect(&rt, "memory");
    let aces = text.repeat(rt.alloc(), 60).expect(&rt, "memory");
    let sddl = format!(in rt.alloc(); "D:{aces}").expect(&rt, "memory");
    let mut lines = String::from_str(rt.alloc(), "").expect(&rt, "memory");
    for number in 1..=60 {
        let line = format!(in rt.alloc();
            "dacl {number} A flags none mask 0x001f01ff rights FA sid S-1-1-0 WD\n"
        ).expect(&rt, "memory");
        lines.push_str(line.as_str()).expect(&rt, "memory");
    }
    let explanation = format!(in rt.alloc();
        "control 0x8004 DP SR\nrm 0x00\nowner none\ngroup none\ndacl list 60\n{lines}sacl absent\nend\n"
    ).expect(&rt, "memory");
    let bytes = bytes_of(&rt, digits.as_str());
    expect_descriptor(
        &rt,
        bytes.as_slice(),
        bytes.as_slice(),
        sddl.as_str(),
        explanation.as_str(),
    );
}
