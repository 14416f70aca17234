//! GUIDs (MS-DTYP 2.3.4), as bytes and as text.

ghost use Rattle.std.specs.Prelude.{◌≡◌, length, Some};
ghost use Rattle.uuid.specs.Parts.{swap_fields};
ghost use Rattle.sd_ace.specs.GuidText.{guid_reads, guid_text};
ghost use Rattle.sd_sink.specs.Print.{Prints};
ghost use Rattle.sd_sink.specs.Sink.{Puts};

use sd_sink::{Print, Printer, Sink, SinkFault};
use uuid::Uuid;

/// The bytes of a GUID.
pub const GUID_SIZE: usize = 16;

/// The characters of a GUID's text: 32 digits and four hyphens.
pub const GUID_TEXT_SIZE: usize = 36;

/// The GUID of these bytes (MS-DTYP 2.3.4.2): the low byte of its first three fields comes first.
///
/// ```
/// let bytes = *b"\xba\x7a\x96\xbf\xe6\x0d\xd0\x11\xa2\x85\x00\xaa\x00\x30\x49\xe2";
/// assert!(rt; Some(guid_read(&bytes)) == guid_from_text(b"bf967aba-0de6-11d0-a285-00aa003049e2"));
/// ```
pub fn guid_read(bytes: &[u8; 16]) -> Uuid
    ensures value { result ≡ swap_fields bytes.now }
    // `guid_bytes` gives the bytes back.
    ensures back { swap_fields result ≡ bytes.now }
{
    Uuid::from_bytes_le(*bytes)
}

/// The bytes of a GUID (MS-DTYP 2.3.4.2), with its first three fields low byte first.
///
/// ```
/// let user = guid_from_text(b"bf967aba-0de6-11d0-a285-00aa003049e2").expect(&rt, "a GUID");
/// assert!(rt; guid_bytes(&user).starts_with(b"\xba\x7a\x96\xbf\xe6\x0d\xd0\x11\xa2\x85"));
/// ```
pub fn guid_bytes(guid: &Uuid) -> [u8; 16]
    ensures value { result ≡ swap_fields guid.now }
    // `guid_read` gives the GUID back.
    ensures back { swap_fields result ≡ guid.now }
{
    // Its array shows that a GUID has 16 bytes.
    let _ = guid.into_bytes();
    guid.to_bytes_le()
}

/// Puts the text of a GUID: 36 characters, in lower case, as `bf967aba-0de6-11d0-a285-00aa003049e2`.
///
/// ```
/// let mut sink = TextSink::new(&rt);
/// let user = guid_from_text(b"BF967ABA-0DE6-11D0-A285-00AA003049E2").expect(&rt, "a GUID");
/// assert!(rt; put_guid(&user, &mut sink) == Ok(()));
/// assert!(rt; sink.bytes() == b"bf967aba-0de6-11d0-a285-00aa003049e2".as_slice());
/// ```
pub fn put_guid<S: Sink>(guid: &Uuid, sink: &mut S) -> Result<(), SinkFault>
    ensures put { Puts (S.told sink.old) (S.told sink.new) (guid_text guid.now) result }
    // The text reads as the GUID.
    ensures back { guid_reads (guid_text guid.now) ≡ Some guid.now }
    ensures short { length (guid_text guid.now) ≡ 36 }
{
    let mut out = Printer::new(sink);
    print_guid(guid, &mut out);
    out.finish()
}

/// Prints the text of a GUID: 36 characters, in lower case.
pub fn print_guid<P: Print>(guid: &Uuid, out: &mut P)
    ensures put { Prints (P.told out.old) (P.told out.new) (guid_text guid.now) }
    ensures back { guid_reads (guid_text guid.now) ≡ Some guid.now }
    ensures short { length (guid_text guid.now) ≡ 36 }
{
    let mut buffer = [0; GUID_TEXT_SIZE];
    let text = guid.hyphenated().encode_lower(&mut buffer);
    out.put(text.as_bytes());
}

/// The GUID of a text (MS-DTYP 2.3.4.3, without its braces): 36 characters, with letters in either case.
/// None for any other text, also for another form of a GUID.
///
/// ```
/// use uuid::Uuid;
///
/// let user = Uuid::parse_str("bf967aba-0de6-11d0-a285-00aa003049e2").ok();
/// assert!(rt; guid_from_text(b"BF967ABA-0DE6-11D0-A285-00AA003049E2") == user);
/// assert!(rt; guid_from_text(b"{bf967aba-0de6-11d0-a285-00aa003049e2}") == None);
/// ```
#[tactic(auto, using(crate::proofs::laws::GuidTexts::other_length))]
pub fn guid_from_text(text: &[u8]) -> Option<Uuid>
    ensures { result ≡ guid_reads text.now }
{
    if text.len() != GUID_TEXT_SIZE {
        return None;
    }
    Uuid::try_parse_ascii(text).ok()
}
