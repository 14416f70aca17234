//! The program and its run over streams that are slow or fail. What it answers stands in `tests/rows/`.

use crate::memory::{Ended, Failing, Input, Output, program};
use sd_core::Token;
use sd_filter::{Act, Engine, Form, FromRead, Job, OutputForm, Report, RunFault, ToWrite, run};
use std::io::Error;
use std::io::ErrorKind::{Interrupted, Other, WouldBlock};
use std::process::Abort;

/// Two lines, and the answers to them.
pub const TEXT: &[u8] = b"0100008000000000000000000000000000000000\nzz\n";

pub const ANSWERS: &[u8] = b"0100008000000000000000000000000000000000\nerror 2 hex-digit\n";

/// The answers to the lines that end in a front of the text.
pub fn answers_to(front: &[u8]) -> &'static [u8] {
    match count(front, b'\n') {
        0 => b"",
        1 => b"0100008000000000000000000000000000000000\n",
        _ => ANSWERS,
    }
}

const READ_FAULT: &[u8] = b"sdtool: error 60 read\n";

const WRITE_FAULT: &[u8] = b"sdtool: error 61 write\n";

// The program over these.
fn over<'a>(rt: &(impl Abort + AllocGlobal), input: Input<'a>, output: Output) -> Ended<'a> {
    let faults = Output::new(rt.alloc());
    program(rt, "sdtool convert --to hex", input, output, faults)
}

/// How often a byte stands there.
pub fn count(bytes: &[u8], byte: u8) -> usize {
    bytes.iter().filter(|other| **other == byte).count()
}

// A short write is no failure, and a flush that fails is one.
#[test]
fn writes_on_and_flushes(rt: HostRuntime) {
    let never = Failing::never();
    for most in [1, 7] {
        let output = Output::slow(rt.alloc(), most, never, never);
        over(&rt, Input::new(TEXT), output).expect(&rt, 1, ANSWERS, b"", b"f");
    }
    let output = Output::slow(rt.alloc(), usize::MAX, never, Failing::from(1));
    over(&rt, Input::new(TEXT), output).expect(&rt, 3, ANSWERS, WRITE_FAULT, b"wf");
}

// Each read fails in turn, once or for good: the run ends with it, and no line that it cut is answered.
#[test]
fn ends_at_the_read_that_fails(rt: HostRuntime) {
    for taken in 0..=TEXT.len() {
        let front = &TEXT[..taken];
        for kind in [Other, WouldBlock, Interrupted] {
            for (text, most) in [(front, 50), (TEXT, 1)] {
                let first = taken.div_ceil(most) as u64 + 1;
                for failing in Failing::once_or_for_good(first, Some(Error::from(kind))) {
                    let input = Input::slow(text, most, failing);
                    let ended = over(&rt, input, Output::new(rt.alloc()));
                    ended.expect(&rt, 3, answers_to(front), READ_FAULT, b"r");
                    assert!(rt; ended.input.reads == first, "{taken}");
                }
            }
        }
    }
}

// Each write fails in turn, once or for good, or takes none: it is the last call of all, and no answer follows it.
#[test]
fn ends_at_the_write_that_fails(rt: HostRuntime) {
    for taken in 0..ANSWERS.len() {
        let first = taken as u64 + 1;
        let error = Some(Error::from(WouldBlock));
        for (error, most) in [(None, usize::MAX), (error, usize::MAX), (error, 1)] {
            for failing in Failing::once_or_for_good(first, error) {
                let input = Input::slow(TEXT, most, Failing::never());
                let output = Output::slow(rt.alloc(), 1, failing, Failing::never());
                let ended = over(&rt, input, output);
                ended.expect(&rt, 3, &ANSWERS[..taken], WRITE_FAULT, b"w");
                assert!(rt; ended.output.writes == first, "{taken}");
            }
        }
        let ended = over(&rt, Input::new(TEXT), Output::with_room(rt.alloc(), taken));
        ended.expect(&rt, 3, &ANSWERS[..taken], WRITE_FAULT, b"w");
    }
}

// The fault stream changes nothing, and is not asked again.
#[test]
fn ends_as_well_where_the_fault_stream_fails(rt: HostRuntime) {
    for room in 0..READ_FAULT.len() {
        let input = Input::slow(TEXT, usize::MAX, Failing::from(2));
        let output = Output::new(rt.alloc());
        let faults = Output::with_room(rt.alloc(), room);
        let ended = program(&rt, "sdtool convert --to hex", input, output, faults);
        ended.expect(&rt, 3, ANSWERS, &READ_FAULT[..room], b"r");
        assert!(rt; ended.faults.writes == 1 + u64::from(room > 0));
    }
}

// In the first piece, the fourth and the last no line ends.
const PIECES: &[u8] = b"zz|z\n|\n|z|zz\n\nz\nz|\r\n|zz";

// All calls of the input and of the output over them.
const CALLS: &[u8] = b"rrwfrwfrrwfrwfrrwf";

// The answers up to each flush.
const FLUSHED: [&str; 6] = [
    "",
    "error 3 hex-odd\n",
    "error 3 hex-odd\n\n",
    "error 3 hex-odd\n\nerror 3 hex-odd\n\nerror 3 hex-odd\n",
    "error 3 hex-odd\n\nerror 3 hex-odd\n\nerror 3 hex-odd\nerror 3 hex-odd\n",
    "error 3 hex-odd\n\nerror 3 hex-odd\n\nerror 3 hex-odd\nerror 3 hex-odd\nerror 2 hex-digit\n",
];

// The program over the pieces, of which it makes these calls.
fn expect_calls(
    rt: &(impl Abort + AllocGlobal),
    reads: Failing,
    flushes: Failing,
    calls: &[u8],
    status: u8,
    said: &[u8],
) {
    let input = Input::slow(PIECES, usize::MAX, reads);
    let output = Output::slow(rt.alloc(), usize::MAX, Failing::never(), flushes);
    let answers = FLUSHED.get(count(calls, b'w')).copied().unwrap_or("");
    let ended = over(rt, input, output);
    ended.expect(rt, status, answers.as_bytes(), said, calls);
    assert!(rt; ended.calls.len() == calls.len());
}

// Each piece in which a line ended is flushed before more is read. Each read and each flush fails in turn, once or for
// good: the run ends with it, and what was answered by then was handed on or, where the flush failed, written.
#[test]
fn flushes_before_it_reads_on(rt: HostRuntime) {
    let never = Failing::never();
    expect_calls(&rt, never, never, CALLS, 1, b"");
    for end in 1..=CALLS.len() {
        let calls = &CALLS[..end];
        let (reads, flushes) = (count(calls, b'r') as u64, count(calls, b'f') as u64);
        for kind in [WouldBlock, Interrupted, Other] {
            let error = Some(Error::from(kind));
            if calls.ends_with(b"r") {
                for failing in Failing::once_or_for_good(reads, error) {
                    expect_calls(&rt, failing, never, calls, 3, READ_FAULT);
                }
            } else if calls.ends_with(b"f") {
                for failing in Failing::once_or_for_good(flushes, error) {
                    expect_calls(&rt, never, failing, calls, 3, WRITE_FAULT);
                }
            }
        }
    }
}

// How often a run over this input reads and flushes, which comes in pieces of at most so many bytes.
fn calls_over(rt: &(impl Abort + AllocGlobal), bytes: &[u8], most: usize) -> (u64, u64) {
    let input = Input::slow(bytes, most, Failing::never());
    let ended = over(rt, input, Output::new(rt.alloc()));
    assert!(rt; ended.faults.taken.is_empty());
    (ended.input.reads, ended.output.flushes)
}

#[test]
fn flushes_no_more_than_that(rt: HostRuntime) {
    assert!(rt; calls_over(&rt, b"", 1) == (1, 1));
    assert!(rt; calls_over(&rt, b"zz", 1) == (3, 1));
    assert!(rt; calls_over(&rt, b"\nzz\n00\n", 1) == (8, 4));
    assert!(rt; calls_over(&rt, b"\nzz\n00\n", 8) == (2, 2));
    assert!(rt; calls_over(&rt, &[b'0'; 20_000], 1) == (20_001, 1));
    // In each piece but the last, which is the end, a line ends.
    let (reads, flushes) = calls_over(&rt, &[b'\n'; 20_000], usize::MAX);
    assert!(rt; reads == flushes && reads < 20);
}

fn report(lines: u64, faults: u64) -> Result<Report, RunFault> {
    Ok(Report { lines, faults })
}

// What run after run returns, over one engine, one source and one drain.
fn expect_runs(
    rt: &(impl Abort + AllocGlobal),
    input: &mut Input<'_>,
    output: &mut Output,
    results: &[Result<Report, RunFault>],
) {
    let job = Job {
        line_form: Form::Hex,
        act: Act::Convert(OutputForm::Hex),
        domain: None,
        numeric: false,
    };
    let mut engine = Engine::new(rt.alloc(), job).expect(rt, "memory for an engine");
    let mut token = Token::new(rt.alloc()).expect(rt, "memory for a token");
    let mut source = FromRead::new(input);
    let mut drain = ToWrite::new(output);
    for result in results {
        assert!(rt; run(&mut engine, &mut token, &mut source, &mut drain) == *result);
    }
}

// Neither an end nor a fault is kept, nor a line in hand.
#[test]
fn runs_again(rt: HostRuntime) {
    let error = Some(Error::from(Interrupted));
    let [failing, _] = Failing::once_or_for_good(8, error);
    let mut input = Input::slow(b"zz\n||\nz|||zz\nz|z\nz|\nzz", usize::MAX, failing);
    let mut output = Output::new(rt.alloc());
    let results = [
        report(1, 1),
        report(2, 1),
        report(0, 0),
        Err(RunFault::Read),
        report(2, 1),
        report(0, 0),
    ];
    expect_runs(&rt, &mut input, &mut output, &results);
    assert!(rt; input.reads == 11);
    let answers =
        "error 2 hex-digit\n\nerror 3 hex-odd\nerror 2 hex-digit\nerror 2 hex-digit\n\nerror 2 hex-digit\n";
    assert!(rt; output.taken.as_slice() == answers.as_bytes());
    // A write that fails once, in an answer.
    let mut input = Input::new(b"zz\nzz\n|\n|");
    let [failing, _] = Failing::once_or_for_good(2, error);
    let mut output = Output::slow(rt.alloc(), 5, failing, Failing::never());
    let results = [Err(RunFault::Write), report(1, 0), report(0, 0)];
    expect_runs(&rt, &mut input, &mut output, &results);
    assert!(rt; output.taken.as_slice() == b"error\n".as_slice());
}

// Lines that come a byte a read, and are answered a byte a write. Their number is an argument, so that no proof counts
// them.
fn expect_lines(rt: &(impl Abort + AllocGlobal), count: u32) {
    let bytes = vec![in rt.alloc(); b'\n'; count as usize].expect(rt, "memory for the lines");
    let mut input = Input::slow(bytes.as_slice(), 1, Failing::never());
    let mut output = Output::new(rt.alloc());
    expect_runs(rt, &mut input, &mut output, &[report(u64::from(count), 0)]);
    assert!(rt; output.taken == bytes && input.reads == u64::from(count) + 1);
}

#[test]
fn answers_more_than_a_million_lines(rt: HostRuntime) {
    expect_lines(&rt, 1_100_000);
}

// What is said of words, in each form, and such words.
const REFUSED: [&str; 7] = [
    "usage|",
    "usage|sdtool",
    "usage: --from|sdtool convert --to x --from y",
    "error 50 empty-request|sdtool check --token WD",
    "error 51 reserved-bits|sdtool check --token WD --want 0x8000000",
    "usage: --group|sdtool derive --group DU --owner BA --kind file",
    "usage: --domain|sdtool convert --domain S-1-5-1-2-3-4-5-6-7-8-9-10-11-12-13-14-15",
];

// Where the fault stream fails, no call is made again.
#[test]
fn refuses_words(rt: HostRuntime) {
    for row in REFUSED {
        let (said, line) = row.split_once('|').expect(&rt, "what is said");
        let text = format!(in rt.alloc(); "sdtool: {said}\n").expect(&rt, "memory");
        for (room, writes) in [(text.len(), 1), (9, 2), (0, 1)] {
            let output = Output::new(rt.alloc());
            let faults = Output::with_room(rt.alloc(), room);
            let ended = program(&rt, line, Input::new(b"00\n"), output, faults);
            let front = text.as_bytes().get(..room).unwrap_or(b"");
            ended.expect(&rt, 2, b"", front, b"");
            let is_idle = ended.faults.writes == writes && ended.calls.is_empty();
            assert!(rt; is_idle, "{row}");
        }
    }
}

const HELPS: &str = "sdtool help|sdtool --help|sdtool -h|sdtool help convert|sdtool convert --help|\
     sdtool convert --to x -h|sdtool help explain|sdtool help check|sdtool derive --help";

// Help is handed on by one flush, its last call, also where the writes are short or one fails, or the flush.
#[test]
fn flushes_help(rt: HostRuntime) {
    let never = Failing::never();
    for line in HELPS.split('|') {
        let asked = |output: Output| {
            let faults = Output::new(rt.alloc());
            program(&rt, line, Input::new(b"00\n"), output, faults)
        };
        let whole = asked(Output::new(rt.alloc())).output;
        let help = whole.taken.as_slice();
        assert!(rt; help.len() > 400, "{line}");
        let writes_of = |output: Output, text: &[u8]| {
            let ended = asked(output);
            ended.expect(&rt, 0, text, b"", b"wf");
            assert!(rt; ended.calls.len() == 2 && ended.output.flushes == 1);
            ended.output.writes
        };
        assert!(rt; writes_of(Output::new(rt.alloc()), help) == 1, "{line}");
        for most in [usize::MAX, 100, 1] {
            let output = Output::slow(rt.alloc(), most, never, Failing::from(1));
            let writes = writes_of(output, help);
            assert!(rt; most < help.len() || writes == 1, "{line}");
        }
        for (room, writes) in [(9, 2), (0, 1)] {
            let is_cut = writes_of(Output::with_room(rt.alloc(), room), &help[..room]) == writes;
            assert!(rt; is_cut, "{line}");
        }
    }
}
