//! The names of faults.

ghost use Rattle.std.specs.Prelude.{◌≡◌};
ghost use Rattle.sd_faults.specs.FaultNames.{fault_name};

/// The name of a fault by its number, as in an `error` line, in a message of the program or from the library for C. It
/// is the empty text where no fault has the number.
pub fn fault_name(number: u32) -> &'static str
    ensures { result.now ≡ fault_name number }
{
    match number {
        1 => "too-long",
        2 => "hex-digit",
        3 => "hex-odd",
        4 => "base64",
        5 => "short",
        6 => "revision",
        7 => "not-self-relative",
        8 => "offset",
        9 => "sid",
        10 => "acl",
        11 => "ace-size",
        12 => "ace-type",
        13 => "ace-flags",
        14 => "overlap",
        20 => "shape",
        21 => "part-twice",
        22 => "alias",
        23 => "needs-domain",
        24 => "number",
        25 => "sid-form",
        26 => "flags",
        27 => "rights",
        28 => "guid",
        29 => "kind",
        30 => "acl-too-large",
        40 => "derived-too-large",
        50 => "empty-request",
        51 => "reserved-bits",
        60 => "read",
        61 => "write",
        62 => "too-many-reads",
        70 => "argument",
        71 => "too-small",
        72 => "no-memory",
        73 => "change",
        _ => "",
    }
}
