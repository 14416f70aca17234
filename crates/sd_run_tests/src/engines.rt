//! Engines: over given buffers, whatever these hold, and over memory that is taken for them; and the token of a run.

use crate::devices::{ANSWERS, TEXT, answers_to, count};
use crate::memory::{Failing, Input, Output};
use sd_access::{Ask, Plan, Privileges, Target};
use sd_binary::{SdBuf, TextBuf};
use sd_core::{EntryKind, Mapping, Sid, SidFault, Token};
use sd_filter::{Act, Engine, Form, FromRead, Job, OutputForm, Report, RunFault, ToWrite, run};
use sd_sddl::SddlFault;
use std::io::Error;
use std::io::ErrorKind::{Interrupted, Other, WouldBlock};
use std::process::Abort;

const FORMS: [Form; 3] = [Form::Hex, Form::Base64, Form::Sddl];

// One descriptor in each of them; its base64 is that of another program.
pub const LINES: [&str; 3] = [
    "010004801400000024000000000000003000000001020000000000052000000020020000\
     01010000000000051200000002001c000100000000001400ff011f00010100000000000100000000\n",
    "AQAEgBQAAAAkAAAAAAAAADAAAAABAgAAAAAABSAAAAAgAgAAAQEAAAAAAAUSAAAAAgAcAAEAAAAAABQA/wEfAAEBAAAAAAABAAAAAA==\n",
    "O:BAG:SYD:(A;;FA;;;WD)\n",
];

fn job(line_form: Form, act: Act) -> Job {
    Job {
        line_form,
        act,
        domain: None,
        numeric: false,
    }
}

// A buffer that holds a descriptor of another line.
fn used(rt: &(impl Abort + AllocGlobal)) -> SdBuf {
    let mut buf = SdBuf::new(rt.alloc()).expect(rt, "memory for a buffer");
    let read = buf.from_hex(b"0100008000000000000000000000000000000000");
    assert!(rt; read == Ok(()));
    buf
}

// Over such buffers, and a text that is no base64.
fn used_engine(rt: &(impl Abort + AllocGlobal), line_form: Form, form: OutputForm) -> Engine {
    let mut text = TextBuf::new(rt.alloc()).expect(rt, "memory for a text");
    assert!(rt; text.extend(b"AQAE!").is_ok());
    let job = job(line_form, Act::Convert(form));
    Engine::over(job, used(rt), used(rt), used(rt), text)
}

// What is answered to an input, in reads of at most so many bytes: a line for each of its lines, so many of them an
// error line.
fn expect_answers(
    rt: &(impl Abort + AllocGlobal),
    engine: &mut Engine,
    token: &mut Token,
    most: usize,
    input: &str,
    answers: &str,
    faults: u64,
) {
    let mut source = Input::slow(input.as_bytes(), most, Failing::never());
    let mut output = Output::new(rt.alloc());
    let mut drain = ToWrite::new(&mut output);
    let report = Report {
        lines: count(answers.as_bytes(), b'\n') as u64,
        faults,
    };
    assert!(rt; run(engine, token, &mut FromRead::new(&mut source), &mut drain) == Ok(report));
    assert!(rt; output.taken.as_slice() == answers.as_bytes());
}

#[test]
fn runs_over_used_buffers(rt: HostRuntime) {
    let mut token = Token::new(rt.alloc()).expect(&rt, "memory for a token");
    for (line_form, line) in FORMS.into_iter().zip(LINES) {
        for (form, answer) in FORMS.into_iter().zip(LINES) {
            let mut engine = used_engine(&rt, line_form, OutputForm::from(form));
            for most in [usize::MAX, 1] {
                expect_answers(&rt, &mut engine, &mut token, most, line, answer, 0);
            }
        }
    }
}

// The longest line of hex, of two SIDs and two ACLs of the largest size: whole, with a CR before its LF, and with two
// digits more.
#[test]
fn runs_the_longest_line_over_used_buffers(rt: HostRuntime) {
    let (sid, acl, rest) = ("010f000000000005", "0200ffff00000000", "");
    let line = format!(in rt.alloc();
        "0100148014000000580000009c0000009b000100{sid:0<136}{sid:0<136}\
         {acl:0<65535}{rest:0<65535}{acl:0<65535}{rest:0<65535}"
    )
    .expect(&rt, "memory for a line");
    assert!(rt; line.len() == 262_452);
    let [last, _, _] = LINES;
    let input = format!(in rt.alloc(); "{line}\n{line}\r\n{line}00\n{last}").expect(&rt, "memory");
    let answers = "O:S-1-5-0-0-0-0-0-0-0-0-0-0-0-0-0-0-0G:S-1-5-0-0-0-0-0-0-0-0-0-0-0-0-0-0-0D:S:\n\
         O:S-1-5-0-0-0-0-0-0-0-0-0-0-0-0-0-0-0G:S-1-5-0-0-0-0-0-0-0-0-0-0-0-0-0-0-0D:S:\n\
         error 1 too-long\nO:BAG:SYD:(A;;FA;;;WD)\n";
    let mut token = Token::new(rt.alloc()).expect(&rt, "memory for a token");
    let mut engine = used_engine(&rt, Form::Hex, OutputForm::Sddl);
    for most in [usize::MAX, 1] {
        expect_answers(&rt, &mut engine, &mut token, most, &input, answers, 1);
    }
}

// What an engine answers, run after run, for a new file. It was given two creators' descriptors, the second with this
// outcome.
fn expect_created(
    rt: &(impl Abort + AllocGlobal),
    first: &[u8],
    second: &[u8],
    want: Result<(), SddlFault>,
    answers: &str,
) {
    let sid = Sid::from_text(b"BA", None).expect(rt, "a SID");
    let plan = Plan {
        target: Target::File,
        owner: sid,
        group: sid,
        mapping: Mapping::FILE,
    };
    let job = Job {
        line_form: Form::Sddl,
        act: Act::Derive(plan, OutputForm::Sddl),
        domain: None,
        numeric: false,
    };
    let mut engine = Engine::new(rt.alloc(), job).expect(rt, "memory for an engine");
    let mut token = Token::new(rt.alloc()).expect(rt, "memory for a token");
    assert!(rt; engine.set_creator(first) == Ok(()));
    assert!(rt; engine.set_creator(second) == want);
    for most in [usize::MAX, 1] {
        let lines = "D:(A;OI;FA;;;SY)\nO:ZZ\nD:(A;OI;FA;;;SY)\n";
        expect_answers(rt, &mut engine, &mut token, most, lines, answers, 1);
    }
}

// The second takes the place of the first. After one that does not read there is none.
#[test]
fn keeps_a_creator_over_runs(rt: HostRuntime) {
    let text =
        "O:BAG:BAD:AI(A;;FR;;;BU)(A;ID;FA;;;SY)\nerror 22 alias\nO:BAG:BAD:AI(A;;FR;;;BU)(A;ID;FA;;;SY)\n";
    expect_created(&rt, b"D:P", b"D:(A;;FR;;;BU)", Ok(()), text);
    let text = "O:BAG:BAD:P\nerror 22 alias\nO:BAG:BAD:P\n";
    expect_created(&rt, b"D:(A;;FR;;;BU)", b"D:P", Ok(()), text);
    let text = "O:BAG:BAD:AI(A;ID;FA;;;SY)\nerror 22 alias\nO:BAG:BAD:AI(A;ID;FA;;;SY)\n";
    expect_created(&rt, b"D:P", b"", Ok(()), text);
    expect_created(&rt, b"D:P", b"D:(A;;FR;;;BU", Err(SddlFault::Shape), text);
    let fault = Err(SddlFault::Sid(SidFault::Alias));
    expect_created(&rt, b"D:P", b"O:ZZD:(A;;FR;;;BU)", fault, text);
}

// A run that checks leaves the token's entries as they are, and compares each at most once for an ACE; one that derives
// compares none.
#[test]
fn looks_at_the_token(rt: HostRuntime) {
    let sid_of = |text: &str| Sid::from_text(text.as_bytes(), None).expect(&rt, "a SID");
    let mut token = Token::new(rt.alloc()).expect(&rt, "memory for a token");
    assert!(rt; token.add(sid_of("WD"), EntryKind::Enabled) == Ok(()));
    assert!(rt; token.add(sid_of("BA"), EntryKind::DenyOnly) == Ok(()));
    let plan = Plan {
        target: Target::Container,
        owner: sid_of("BA"),
        group: sid_of("SY"),
        mapping: Mapping::FILE,
    };
    let act = Act::Derive(plan, OutputForm::Sddl);
    let mut engine = Engine::new(rt.alloc(), job(Form::Sddl, act)).expect(&rt, "memory");
    let lines = "D:(A;;FA;;;BA)\nD:(A;OI;FA;;;WD)\n\nD:(\n";
    let answers = "O:BAG:SYD:AI\nO:BAG:SYD:AI(A;OIIOID;FA;;;WD)\n\nerror 20 shape\n";
    expect_answers(&rt, &mut engine, &mut token, 1, lines, answers, 1);
    assert!(rt; token.compared() == 0);
    let privileges = Privileges {
        security: false,
        take_ownership: false,
    };
    let ask = Ask::new(0x120089, false, Mapping::FILE, None, None, privileges);
    let act = Act::Check(ask.expect(&rt, "a request"));
    let mut engine = Engine::new(rt.alloc(), job(Form::Sddl, act)).expect(&rt, "memory");
    let answers = "denied 0x00120089\ngranted 0x00120089\n\nerror 20 shape\n";
    expect_answers(&rt, &mut engine, &mut token, 1, lines, answers, 1);
    assert!(rt; token.len() == 2);
    // The first line needs both entries, and the second one at least one.
    assert!(rt; 3 <= token.compared() && token.compared() <= 8);
}

// The texts of its three values, of which no run of a test reaches the last.
#[test]
fn names_the_faults_of_a_run(rt: HostRuntime) {
    for (fault, name) in [
        (RunFault::Read, "60 read"),
        (RunFault::Write, "61 write"),
        (RunFault::TooManyReads, "62 too-many-reads"),
    ] {
        let text = format!(in rt.alloc(); "{fault}").expect(&rt, "memory for a text");
        assert!(rt; text.as_str() == name);
    }
}

// A run over these devices has this fault and wrote these answers, and the same engine then answers the next line.
fn expect_fault(
    rt: &(impl Abort + AllocGlobal),
    engine: &mut Engine,
    token: &mut Token,
    devices: (Input<'_>, Output),
    fault: RunFault,
    answers: &[u8],
) {
    let (mut input, mut output) = devices;
    let mut drain = ToWrite::new(&mut output);
    assert!(rt; run(engine, token, &mut FromRead::new(&mut input), &mut drain) == Err(fault));
    assert!(rt; output.taken.as_slice() == answers);
    let [line, _, _] = LINES;
    expect_answers(rt, engine, token, usize::MAX, line, line, 0);
}

#[test]
fn runs_again_after_each_failed_read(rt: HostRuntime) {
    let mut token = Token::new(rt.alloc()).expect(&rt, "memory for a token");
    let mut engine = used_engine(&rt, Form::Hex, OutputForm::Hex);
    for taken in 0..=TEXT.len() {
        for kind in [Other, WouldBlock, Interrupted] {
            let error = Some(Error::from(kind));
            for failing in Failing::once_or_for_good(taken as u64 + 1, error) {
                let devices = (Input::slow(TEXT, 1, failing), Output::new(rt.alloc()));
                let answers = answers_to(&TEXT[..taken]);
                expect_fault(
                    &rt,
                    &mut engine,
                    &mut token,
                    devices,
                    RunFault::Read,
                    answers,
                );
            }
        }
    }
}

// A write that fails, one that takes nothing, an output that is full, and a flush that fails.
#[test]
fn runs_again_after_each_failed_write(rt: HostRuntime) {
    let mut token = Token::new(rt.alloc()).expect(&rt, "memory for a token");
    let mut engine = used_engine(&rt, Form::Hex, OutputForm::Hex);
    let never = Failing::never();
    let outputs = |taken: usize| {
        let [fails, takes_none] = [Some(Error::from(Other)), None].map(|error| {
            let [failing, _] = Failing::once_or_for_good(taken as u64 + 1, error);
            Output::slow(rt.alloc(), 1, failing, never)
        });
        [fails, takes_none, Output::with_room(rt.alloc(), taken)]
    };
    for taken in 0..ANSWERS.len() {
        for output in outputs(taken) {
            let devices = (Input::new(TEXT), output);
            let answers = &ANSWERS[..taken];
            expect_fault(
                &rt,
                &mut engine,
                &mut token,
                devices,
                RunFault::Write,
                answers,
            );
        }
    }
    let output = Output::slow(rt.alloc(), usize::MAX, never, Failing::from(1));
    let devices = (Input::new(TEXT), output);
    expect_fault(
        &rt,
        &mut engine,
        &mut token,
        devices,
        RunFault::Write,
        ANSWERS,
    );
}
