//! Streams of std as a source and a drain. No clause says that a stream is called, so its calls are counted here.

use crate::memory::{Failing, Input, Output};
use sd_filter::{DeviceFault, Drain, FromRead, Source, ToWrite};
use std::io::{self, Error, ErrorKind};
use std::process::Abort;

// The numbers of the system's errors, and one more. Their kinds are all but these.
const NUMBERS: usize = 135;

const OTHER_KINDS: [ErrorKind; 4] = [
    ErrorKind::InvalidData,
    ErrorKind::Other,
    ErrorKind::UnexpectedEof,
    ErrorKind::WriteZero,
];

// The error of a number, or behind the numbers of another kind; and its kind by itself and with a text.
fn errors_at(index: usize) -> [Error; 3] {
    let other = index
        .checked_sub(NUMBERS)
        .and_then(|at| OTHER_KINDS.get(at));
    let error = match other {
        Some(kind) => Error::from(*kind),
        None => Error::from_raw_os_error(i32::try_from(index).unwrap_or(0)),
    };
    [
        error,
        Error::from(error.kind()),
        Error::new(error.kind(), "a text"),
    ]
}

// Two bytes, their end, and what follows it, in six calls: each is one read, and only what fails fails.
fn expect_reads(rt: &impl Abort, failing: Failing) {
    let mut input = Input::slow(b"ab", 1, failing);
    let mut source = FromRead::new(&mut input);
    let mut rest: &[u8] = b"ab";
    for call in 1..=6 {
        let mut buf = [0; 2];
        let got = source.read(&mut buf);
        if failing.is_at(call) {
            assert!(rt; got == Err(DeviceFault));
        } else if let Some((byte, more)) = rest.split_first() {
            assert!(rt; got == Ok(1));
            assert!(rt; buf[0] == *byte);
            rest = more;
        } else {
            assert!(rt; got == Ok(0));
        }
    }
    assert!(rt; input.reads == 6);
}

// What the stream gives in one read is handed on in one.
#[test]
fn reads_as_much_as_there_is(rt: HostRuntime) {
    let bytes = [b'a'; 10_000];
    let mut input = Input::slow(&bytes, usize::MAX, Failing::from(3));
    let mut source = FromRead::new(&mut input);
    let mut buf = [0; 8_192];
    assert!(rt; source.read(&mut []) == Ok(0));
    assert!(rt; source.read(&mut buf) == Ok(8_192));
    assert!(rt; buf.as_slice() == &bytes[..8_192]);
    assert!(rt; source.read(&mut buf) == Ok(1_808));
    assert!(rt; source.read(&mut buf) == Err(DeviceFault));
    assert!(rt; input.reads == 3);
}

// Five bytes in eight calls, of which every other is a flush: each is one call of the stream, and only what
// fails fails.
fn expect_writes(rt: &(impl Abort + AllocGlobal), writes: Failing, flushes: Failing) {
    let mut output = Output::slow(rt.alloc(), 2, writes, flushes);
    let mut drain = ToWrite::new(&mut output);
    let mut rest: &[u8] = b"abcde";
    for call in 1..=4 {
        let written = drain.write(rest);
        if writes.is_at(call) {
            assert!(rt; written == Err(DeviceFault));
        } else {
            let n = rest.len().min(2);
            assert!(rt; written == Ok(n));
            rest = &rest[n..];
        }
        let flushed = drain.flush();
        assert!(rt; flushed.is_err() == flushes.is_at(call));
    }
    assert!(rt; b"abcde".strip_prefix(output.taken.as_slice()) == Some(rest));
    assert!(rt; output.writes == 4);
    assert!(rt; output.flushes == 4);
}

#[test]
fn calls_the_stream_once_a_call(rt: HostRuntime) {
    for index in 0..NUMBERS + OTHER_KINDS.len() {
        for error in errors_at(index) {
            for first in 1..=6 {
                for failing in Failing::once_or_for_good(first, Some(error)) {
                    expect_reads(&rt, failing);
                    expect_writes(&rt, failing, Failing::never());
                    expect_writes(&rt, Failing::never(), failing);
                    expect_writes(&rt, failing, failing);
                }
            }
        }
    }
}

// A write takes as much as the stream does, which may be nothing; and a flush needs no write before it.
#[test]
fn writes_as_much_as_is_taken(rt: HostRuntime) {
    for most in [usize::MAX, 0] {
        let mut output = Output::slow(rt.alloc(), most, Failing::never(), Failing::from(2));
        let mut drain = ToWrite::new(&mut output);
        assert!(rt; drain.flush() == Ok(()));
        assert!(rt; drain.write(&[b'a'; 100_000]) == Ok(most.min(100_000)));
        assert!(rt; drain.flush() == Err(DeviceFault));
        assert!(rt; output.writes == 1);
        assert!(rt; output.flushes == 2);
        assert!(rt; output.taken.len() == most.min(100_000));
    }
}

#[test]
fn reads_and_writes_more_than_a_million_times(rt: HostRuntime) {
    let mut source = FromRead::new(io::repeat(b'a'));
    let mut drain = ToWrite::new(io::sink());
    for _ in 0..1_100_000 {
        assert!(rt; source.read(&mut [0]) == Ok(1));
        assert!(rt; drain.write(b"a") == Ok(1));
        assert!(rt; drain.flush() == Ok(()));
    }
}
