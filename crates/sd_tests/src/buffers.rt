//! Buffers, and what is read into them: hex in pieces, base64, and what a refusal leaves.
ghost use Rattle.std.specs.Prelude.{◌≤◌, ◌<◌, length};
ghost use Rattle.sd_text.specs.Limits.{most_hex_text};

use sd_access::{DeriveFault, Plan, Target, derive};
use sd_binary::{Full, HexReader, SdBuf, TextBuf, TextFault, Which, read};
use sd_core::{Mapping, Sid};
use sd_sddl::{SddlFault, read_sddl};
use std::process::Abort;

// 174,968 characters: four for three bytes, of 131,226 bytes. A text is extended by all bytes or none.
#[test]
fn holds_the_longest_line_of_base64(rt: HostRuntime) {
    let mut text = TextBuf::new(rt.alloc()).expect(&rt, "memory for a text");
    assert!(rt; text.extend(b"AAAA") == Ok(()));
    assert!(rt; text.extend(&[b'B'; 174_965]) == Err(Full));
    assert!(rt; text.bytes() == b"AAAA".as_slice());
    for _ in 4..174_968 {
        assert!(rt; text.push(b'A') == Ok(()));
    }
    assert!(rt; text.push(b'B') == Err(Full) && text.bytes().len() == 174_968);
    assert!(rt; text.bytes().iter().all(|byte| *byte == b'A'));
}

// A vector of RFC 4648, section 10, and a text with an LF, which no line has.
#[test]
fn decodes_base64(rt: HostRuntime) {
    let mut buf = SdBuf::new(rt.alloc()).expect(&rt, "memory for a buffer");
    assert!(rt; buf.bytes().is_empty());
    assert!(rt; buf.push(1) == Ok(()) && buf.bytes() == [1].as_slice());
    assert!(rt; buf.from_base64(b"Zm9vYg==") == Ok(()) && buf.bytes() == b"foob".as_slice());
    assert!(rt; buf.from_base64(b"Zm9v\n") == Err(TextFault::Base64));
    assert!(rt; buf.bytes().is_empty());
}

// The symbols of base64 in the order of their values, and the bytes of these values.
const SYMBOLS: &[u8; 64] = b"ABCDEFGHIJKLMNOPQRSTUVWXYZabcdefghijklmnopqrstuvwxyz0123456789+/";

const SIX_BITS: &[u8; 48] =
    b"\x00\x10\x83\x10\x51\x87\x20\x92\x8b\x30\xd3\x8f\x41\x14\x93\x51\x55\x97\x61\x96\x9b\x71\xd7\x9f\
      \x82\x18\xa3\x92\x59\xa7\xa2\x9a\xab\xb2\xdb\xaf\xc3\x1c\xb3\xd3\x5d\xb7\xe3\x9e\xbb\xf3\xdf\xbf";

// Groups of four symbols, up to 64 symbols: fewer than a block, a block, and some behind it.
#[test]
fn decodes_base64_of_any_length(rt: HostRuntime) {
    let mut buf = SdBuf::new(rt.alloc()).expect(&rt, "memory for a buffer");
    for groups in 0..=16 {
        assert!(rt; buf.from_base64(&SYMBOLS[..4 * groups]) == Ok(()));
        assert!(rt; buf.bytes() == &SIX_BITS[..3 * groups]);
    }
    for length in 0..64 {
        let is_read = buf.from_base64(&SYMBOLS[..length]).is_ok();
        assert!(rt; is_read == (length % 4 == 0), "{length}");
    }
}

// Each character at the ends of blocks, where it is a symbol and where it is none.
#[test]
fn decodes_base64_of_symbols_alone(rt: HostRuntime) {
    let mut buf = SdBuf::new(rt.alloc()).expect(&rt, "memory for a buffer");
    for place in [0, 15, 16, 31, 32, 47, 48, 63] {
        for character in 0..=u8::MAX {
            let mut text = *SYMBOLS;
            if let Some(cell) = text.get_mut(place) {
                *cell = character;
            }
            // `=` is an error at the last place too, since `+` before it has bits behind the last byte.
            let is_symbol = SYMBOLS.contains(&character);
            let want = if is_symbol {
                Ok(())
            } else {
                Err(TextFault::Base64)
            };
            assert!(rt; buf.from_base64(&text) == want, "{place} {character}");
        }
    }
}

// In pieces of this size, or digit by digit.
fn read_in_pieces(buf: &mut SdBuf, text: &[u8], size: usize) -> Result<(), TextFault> {
    let mut reader = HexReader::new(buf);
    if size == 0 {
        for byte in text {
            reader.feed(buf, *byte);
        }
    } else {
        for piece in text.chunks(size) {
            reader.feed_all(buf, piece);
        }
    }
    reader.finish(buf)
}

// In two pieces.
fn read_in_two(buf: &mut SdBuf, text: &[u8], cut: usize) -> Result<(), TextFault>
    requires { cut ≤ length text.now }
{
    let mut reader = HexReader::new(buf);
    reader.feed_all(buf, &text[..cut]);
    reader.feed_all(buf, &text[cut..]);
    reader.finish(buf)
}

// At once, digit by digit, in pieces of each size, and in two.
fn expect_read(
    rt: &impl Abort,
    buf: &mut SdBuf,
    text: &[u8],
    want: Result<(), TextFault>,
    bytes: &[u8],
)
    requires { length text.now ≤ most_hex_text }
{
    assert!(rt; buf.from_hex(text) == want && buf.bytes() == bytes);
    for size in 0..=text.len() {
        let is_read = read_in_pieces(buf, text, size) == want;
        assert!(rt; is_read && buf.bytes() == bytes);
        let is_read = read_in_two(buf, text, size) == want;
        assert!(rt; is_read && buf.bytes() == bytes);
    }
}

// Digits in either case, and the bytes that they spell.
const DIGITS: &[u8; 66] = b"0123456789abcdeffedcba98765432100f1e2d3c4b5a69788796a5b4c3d2e1f03d";

const CAPITALS: &[u8; 66] = b"0123456789ABCDEFFEDCBA98765432100F1E2D3C4B5A69788796A5B4C3D2E1F03D";

const SPELLED: &[u8; 33] = b"\x01\x23\x45\x67\x89\xab\xcd\xef\xfe\xdc\xba\x98\x76\x54\x32\x10\
      \x0f\x1e\x2d\x3c\x4b\x5a\x69\x78\x87\x96\xa5\xb4\xc3\xd2\xe1\xf0\x3d";

// The first of the digits, and the same with a character just outside of the digits at the ends of blocks of 32 and of
// vectors of 16.
fn expect_first_digits(rt: &impl Abort, buf: &mut SdBuf, count: usize)
    requires least { 1 ≤ count }
    requires most { count ≤ 66 }
{
    let is_odd = count % 2 == 1;
    let (want, bytes) = if is_odd {
        (Err(TextFault::HexOdd), 0)
    } else {
        (Ok(()), count / 2)
    };
    expect_read(rt, buf, &DIGITS[..count], want, &SPELLED[..bytes]);
    expect_read(rt, buf, &CAPITALS[..count], want, &SPELLED[..bytes]);
    let fault = if is_odd {
        TextFault::HexOdd
    } else {
        TextFault::HexDigit
    };
    for place in [0, 15, 16, 31, 32, count - 1] {
        for wrong in *b"/:@G`g" {
            let mut text = *DIGITS;
            if place < count {
                text[place] = wrong;
                expect_read(rt, buf, &text[..count], Err(fault), b"");
            }
        }
    }
}

// Fewer digits than a block, a block, and a block and more, once and twice.
#[test]
fn reads_hex_in_blocks(rt: HostRuntime) {
    let mut buf = SdBuf::new(rt.alloc()).expect(&rt, "memory for a buffer");
    for count in 31..=34 {
        expect_first_digits(&rt, &mut buf, count);
        expect_first_digits(&rt, &mut buf, count + 32);
    }
}

// An odd number of characters comes before a wrong one, wherever that stands.
#[test]
fn reads_hex_that_is_cut_anywhere(rt: HostRuntime) {
    let mut buf = SdBuf::new(rt.alloc()).expect(&rt, "memory for a buffer");
    expect_read(&rt, &mut buf, b"", Ok(()), b"");
    let bytes = b"\x01\x23\x45\x67\x89\xab\xcd\xef";
    expect_read(&rt, &mut buf, b"0123456789abcdef", Ok(()), bytes);
    expect_read(&rt, &mut buf, b"FEdcBA98", Ok(()), b"\xfe\xdc\xba\x98");
    expect_read(&rt, &mut buf, b"0", Err(TextFault::HexOdd), b"");
    expect_read(&rt, &mut buf, b"01234", Err(TextFault::HexOdd), b"");
    expect_read(&rt, &mut buf, b"g1234", Err(TextFault::HexOdd), b"");
    expect_read(&rt, &mut buf, b"0123g", Err(TextFault::HexOdd), b"");
    expect_read(&rt, &mut buf, b"g12345", Err(TextFault::HexDigit), b"");
    expect_read(&rt, &mut buf, b"01 345", Err(TextFault::HexDigit), b"");
    expect_read(&rt, &mut buf, b"01234:", Err(TextFault::HexDigit), b"");
}

// Which fault each of these is stands in `tests/rows/`.
const NO_LINES: &str =
    "D:(A;;FA;;WD) O:ZZD:(A;;FA;;WD) O:BAO:ZZ O:ZZ O:DA O:S-1-4294967296 O: D:PA D:(A;XX;FA;;;WD) D:(A;;GA1;;;WD) \
     D:(A;;FA;x;;WD) D:(XA;;FA;;;WD)";

#[test]
fn leaves_nothing_of_a_line_that_does_not_read(rt: HostRuntime) {
    let mut buf = SdBuf::new(rt.alloc()).expect(&rt, "memory");
    for line in NO_LINES.split(' ') {
        let is_read = read_sddl(b"O:BAD:(A;;FA;;;WD)", None, &mut buf).is_ok();
        assert!(rt; is_read && buf.bytes().len() == 64);
        let is_refused = read_sddl(line.as_bytes(), None, &mut buf).is_err();
        assert!(rt; is_refused && buf.bytes().is_empty(), "{line}");
    }
}

// An ACE for the creator takes 20 bytes, 3,276 of them and the ACL's header 65,528. The effective copy of one for a
// longer SID takes 36.
#[test]
fn leaves_nothing_of_an_acl_that_is_too_large(rt: HostRuntime) {
    let mut buf = SdBuf::new(rt.alloc()).expect(&rt, "memory");
    let mut made = SdBuf::new(rt.alloc()).expect(&rt, "memory");
    let owner = Sid::new(5, &[21, 1, 2, 3, 1001]).expect(&rt, "a SID");
    let plan = Plan {
        target: Target::Container,
        owner,
        group: owner,
        mapping: Mapping::FILE,
    };
    let ace = "(A;OICI;FA;;;CO)";
    let aces = ace.repeat(rt.alloc(), 3_276).expect(&rt, "memory");
    for (letter, which) in [('D', Which::Dacl), ('S', Which::Sacl)] {
        let line = format!(in rt.alloc(); "{letter}:{aces}{ace}").expect(&rt, "memory");
        let fault = Err(SddlFault::AclTooLarge(which));
        assert!(rt; read_sddl(line.as_bytes(), None, &mut buf) == fault);
        assert!(rt; buf.bytes().is_empty());
        let line = format!(in rt.alloc(); "{letter}:{aces}").expect(&rt, "memory");
        assert!(rt; read_sddl(line.as_bytes(), None, &mut buf) == Ok(()));
        assert!(rt; buf.bytes().len() == 20 + 65_528);
        let parent = read(buf.bytes()).expect(&rt, "a descriptor");
        let fault = Err(DeriveFault::DerivedTooLarge(which));
        for creator in [None, Some(&parent)] {
            assert!(rt; made.from_hex(b"00") == Ok(()));
            assert!(rt; derive(&parent, creator, &plan, &mut made) == fault);
            assert!(rt; made.bytes().is_empty());
        }
    }
}
