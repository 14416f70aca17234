//! Streams over memory, which are slow or fail where they are told to and count their calls, and the program over them.
ghost use Rattle.std.specs.Io.{WritesAtMost};

use sd_filter::{FromRead, ToWrite, command};
use std::alloc::Global;
use std::cell::RefCell;
use std::io::{Error, ErrorKind, Read, Result, Write};
use std::process::Abort;

/// Which calls fail, from the first of them to the last, counted from 1, and how: without an error none is taken.
#[derive(Clone, Copy)]
pub struct Failing {
    pub first: u64,
    pub last: u64,
    pub error: Option<Error>,
}

impl Failing {
    /// No call fails.
    pub fn never() -> Self {
        Failing {
            last: 0,
            ..Failing::from(1)
        }
    }

    /// From this call on each fails.
    pub fn from(first: u64) -> Self {
        Failing {
            first,
            last: u64::MAX,
            error: Some(Error::from(ErrorKind::Other)),
        }
    }

    /// This call fails: alone, and with all that follow it.
    pub fn once_or_for_good(first: u64, error: Option<Error>) -> [Self; 2] {
        [first, u64::MAX].map(|last| Failing { first, last, error })
    }

    /// Whether this call fails.
    pub fn is_at(&self, call: u64) -> bool {
        self.first <= call && call <= self.last
    }

    fn error_at(&self, call: u64) -> Result<()> {
        match self.error {
            Some(error) if self.is_at(call) => Err(error),
            _ => Ok(()),
        }
    }
}

/// Gives its bytes, and then the end, as often as it is asked. No read goes past a bar, which is not given: two in a
/// row are an end in between.
#[derive(Drop)]
pub struct Input<'a> {
    pub bytes: &'a [u8],
    /// The bytes that one read gives at most.
    pub most: usize,
    pub failing: Failing,
    pub reads: u64,
}

impl<'a> Input<'a> {
    pub fn new(bytes: &'a [u8]) -> Self {
        Input::slow(bytes, usize::MAX, Failing::never())
    }

    pub fn slow(bytes: &'a [u8], most: usize, failing: Failing) -> Self {
        Input {
            bytes,
            most,
            failing,
            reads: 0,
        }
    }
}

impl<'a> Read for Input<'a> {
    fn read(&mut self, buf: &mut [u8]) -> Result<usize> {
        self.reads = self.reads.saturating_add(1);
        self.failing.error_at(self.reads)?;
        let n = self.most.min(buf.len()).min(self.bytes.len());
        let bar = self.bytes[..n].iter().position(|byte| *byte == b'|');
        let given = self.bytes.read(&mut buf[..bar.unwrap_or(n)])?;
        self.bytes = self.bytes.strip_prefix(b"|").unwrap_or(self.bytes);
        Ok(given)
    }
}

/// Takes bytes.
#[derive(Drop)]
pub struct Output {
    pub taken: Vec<u8>,
    /// The bytes that one write takes at most.
    pub most: usize,
    /// The bytes that all writes take: one that finds none of this room left fails.
    pub room: usize,
    pub failing_writes: Failing,
    pub failing_flushes: Failing,
    pub writes: u64,
    pub flushes: u64,
}

impl Output {
    pub fn new(alloc: Global) -> Self {
        Output::slow(alloc, usize::MAX, Failing::never(), Failing::never())
    }

    pub fn with_room(alloc: Global, room: usize) -> Self {
        Output {
            room,
            ..Output::new(alloc)
        }
    }

    pub fn slow(alloc: Global, most: usize, writes: Failing, flushes: Failing) -> Self {
        Output {
            taken: Vec::new(alloc),
            most,
            room: usize::MAX,
            failing_writes: writes,
            failing_flushes: flushes,
            writes: 0,
            flushes: 0,
        }
    }
}

impl Write for Output {
    fn write(&mut self, bytes: &[u8]) -> Result<usize>
        ensures { WritesAtMost result bytes.now }
    {
        self.writes = self.writes.saturating_add(1);
        self.failing_writes.error_at(self.writes)?;
        if self.failing_writes.is_at(self.writes) {
            return Ok(0);
        }
        let room = self.room.saturating_sub(self.taken.len());
        if room == 0 {
            return Err(Error::from(ErrorKind::Other));
        }
        let n = bytes.len().min(self.most).min(room);
        self.taken.extend_from_slice(&bytes[..n])?;
        Ok(n)
    }

    fn flush(&mut self) -> Result<()> {
        self.flushes = self.flushes.saturating_add(1);
        self.failing_flushes.error_at(self.flushes)
    }
}

// A stream whose calls are noted in their order, among those of others, each by its letter: `r`, `w` or `f`. Writes in
// a row have one.
#[derive(Drop)]
struct Noted<'a, S: Drop> {
    stream: S,
    calls: &'a RefCell<Vec<u8>>,
}

impl<'a, S: Drop> Noted<'a, S> {
    fn new(stream: S, calls: &'a RefCell<Vec<u8>>) -> Self {
        Noted { stream, calls }
    }

    fn note(&self, letter: u8) -> Result<()> {
        let mut letters = self.calls.try_borrow_mut()?;
        if letter != b'w' || !letters.as_slice().ends_with(b"w") {
            letters.push(letter)?;
        }
        Ok(())
    }
}

impl<'a, S: Read + Drop> Read for Noted<'a, S> {
    fn read(&mut self, buf: &mut [u8]) -> Result<usize> {
        self.note(b'r')?;
        self.stream.read(buf)
    }
}

impl<'a, S: Write + Drop> Write for Noted<'a, S> {
    fn write(&mut self, bytes: &[u8]) -> Result<usize> {
        self.note(b'w')?;
        self.stream.write(bytes)
    }

    fn flush(&mut self) -> Result<()> {
        self.note(b'f')?;
        self.stream.flush()
    }
}

/// What became of a run of the program.
#[derive(Drop)]
pub struct Ended<'a> {
    pub status: u8,
    pub input: Input<'a>,
    pub output: Output,
    pub faults: Output,
    /// Of the input and of the output.
    pub calls: Vec<u8>,
}

impl<'a> Ended<'a> {
    /// That it ended with this status, wrote these answers and said this, and that these were its last calls.
    pub fn expect(&self, rt: &impl Abort, status: u8, answers: &[u8], said: &[u8], calls: &[u8]) {
        assert!(rt; self.output.taken.as_slice() == answers);
        assert!(rt; self.faults.taken.as_slice() == said);
        assert!(rt; self.status == status);
        assert!(rt; self.calls.as_slice().ends_with(calls));
    }
}

/// What becomes of a command line, whose words stand between blanks.
pub fn program<'a>(
    rt: &(impl Abort + AllocGlobal),
    line: &str,
    input: Input<'a>,
    output: Output,
    mut faults: Output,
) -> Ended<'a> {
    let mut words = Vec::new(rt.alloc());
    for word in line.split(' ') {
        let word = String::from_str(rt.alloc(), word).expect(rt, "memory for a word");
        words.push(word).expect(rt, "memory for the words");
    }
    let calls = RefCell::new(Vec::new(rt.alloc()));
    let mut source = Noted::new(input, &calls);
    let mut drain = Noted::new(output, &calls);
    let status = command(
        rt.alloc(),
        words,
        &mut FromRead::new(&mut source),
        &mut ToWrite::new(&mut drain),
        &mut ToWrite::new(&mut faults),
    );
    Ended {
        status,
        input: source.stream,
        output: drain.stream,
        faults,
        calls: calls.into_inner(),
    }
}
