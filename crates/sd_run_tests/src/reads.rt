//! A run that gives up after a number of reads. `run` gives up after 2^40, which no test can make.

use crate::engines::LINES;
use sd_core::Token;
use sd_filter::{Act, Engine, Form, FromRead, Job, OutputForm, Report, RunFault, ToWrite, run};
use sd_run::run_at_most;
use std::process::Abort;

// What a run of at most five reads over the input returns, and the answers to it. The same engine then runs again, and
// nothing is left of the line in hand.
fn expect_of_five(
    rt: &(impl Abort + AllocGlobal),
    input: &[u8],
    want: Result<Report, RunFault>,
    answers: &[u8],
) {
    let job = Job {
        line_form: Form::Hex,
        act: Act::Convert(OutputForm::Hex),
        domain: None,
        numeric: false,
    };
    let mut engine = Engine::new(rt.alloc(), job).expect(rt, "memory for an engine");
    let mut token = Token::new(rt.alloc()).expect(rt, "memory for a token");
    let mut output = Vec::new(rt.alloc());
    let got = run_at_most(
        &mut engine,
        &mut token,
        &mut FromRead::new(input),
        &mut ToWrite::new(&mut output),
        5,
    );
    assert!(rt; got == want);
    assert!(rt; output.as_slice() == answers);
    let line = LINES[0].as_bytes();
    let mut output = Vec::new(rt.alloc());
    let (mut source, mut drain) = (FromRead::new(line), ToWrite::new(&mut output));
    let one = Report {
        lines: 1,
        faults: 0,
    };
    assert!(rt; run(&mut engine, &mut token, &mut source, &mut drain) == Ok(one));
    assert!(rt; output.as_slice() == line);
}

#[test]
fn gives_up_a_source_without_an_end(rt: HostRuntime) {
    // A read gives 8,192 bytes. The fifth ends within a line.
    let mut input = [b'\n'; 40_961];
    input[40_959] = b'z';
    let ended = Report {
        lines: 32_768,
        faults: 0,
    };
    expect_of_five(&rt, &input[..32_768], Ok(ended), &input[..32_768]);
    let given_up = Err(RunFault::TooManyReads);
    expect_of_five(&rt, &input[..32_769], given_up, &input[..32_769]);
    expect_of_five(&rt, &input, given_up, &input[..40_959]);
}
