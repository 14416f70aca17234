//! Lines cut from the front of an input that is in memory.

ghost use Rattle.std.specs.Prelude.{◌≡◌, ◌<◌, ◌∷◌, [], length, MatchOption};
ghost use Rattle.sd_answer.specs.LineEnd.{without_cr};
ghost use Rattle.sd_run.specs.Lines.{lines};

use crate::feed::line_end;

/// The first line of some bytes, without its LF and one CR before that, and what follows it.
#[derive(Clone, Copy)]
pub struct FirstLine<'a> {
    pub line: &'a [u8],
    pub rest: &'a [u8],
}

/// The first line of some bytes. What has no LF is a line too, and keeps its CR. None where there is no byte.
pub fn first_line(bytes: &[u8]) -> Option<FirstLine<'_>>
    ensures cut { MatchOption result (lines bytes.now ≡ [])
        (λ cut. lines bytes.now ≡ cut.line.now ∷ lines cut.rest.now) }
    ensures shorter { MatchOption result (Unit {0}) (λ cut. length cut.rest.now < length bytes.now) }
{
    if bytes.is_empty() {
        return None;
    }
    match line_end(bytes) {
        Some(n) => Some(FirstLine {
            line: without_cr(&bytes[..n]),
            rest: &bytes[n + 1..],
        }),
        None => Some(FirstLine {
            line: bytes,
            rest: &bytes[bytes.len()..],
        }),
    }
}

fn without_cr(line: &[u8]) -> &[u8]
    ensures { result.now ≡ without_cr line.now }
{
    match line.split_last() {
        Some((last, front)) if *last == b'\r' => front,
        _ => line,
    }
}
