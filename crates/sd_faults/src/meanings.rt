//! What each fault means.

ghost use Rattle.std.specs.Prelude.{◌≡◌, ◌≤◌, length};
ghost use Rattle.sd_faults.specs.FaultNames.{fault_name};
ghost use Rattle.sd_faults.specs.Meanings.{meaning};

/// What a fault means, by its number: the empty text where no fault has the number.
pub fn meaning(number: u32) -> &'static str
    ensures value { result.now ≡ meaning number }
    ensures short { length result.now ≤ 174 }
    // No name is longer.
    ensures name { length (fault_name number) ≤ 17 }
{
    match number {
        1 => "the line exceeds its limit",
        2 => "a character is not a hex digit",
        3 => "the number of characters is odd",
        4 => "the line is not base64",
        5 => "fewer than 20 bytes",
        6 => "the revision of the header is not 1",
        7 => "control bit 0x8000 is clear",
        8 => "the offset is below 20, or fewer than 8 bytes follow it",
        9 =>
            "the revision of a SID is not 1, its count exceeds 15, or it passes the end of the bytes or of its ACE",
        10 =>
            "the revision of the ACL is not 2 or 4, its size is below 8, or it passes the end of the bytes",
        11 =>
            "fewer than 16 bytes of the ACL are left for an ACE; or its size is below 16, not a multiple of 4 or \
             beyond the ACL; or its object fields and 8 bytes of a SID do not fit in it",
        12 => "the type of an ACE is not supported",
        13 => "an ACE has flag 0x20",
        14 => "two parts share a byte",
        20 => "parentheses, colons or the number of fields are wrong",
        21 => "two parts have the same letter",
        22 => "two letters that are not an alias",
        23 => "a relative alias without a domain",
        24 => "a decimal number of a SID has more than ten digits, or is 2^32 or more",
        25 => "any other text that is not a SID",
        26 => "flags of an ACL or an ACE that are not in the tables",
        27 => "rights that are not in the tables",
        28 => "an object type is not a GUID, or its ACE is of a kind without object types",
        29 => "no such kind of ACE, such as XA",
        30 => "the ACL would exceed 65,535 bytes; the first from the left",
        40 => "a derived ACL exceeds 65,535 bytes; the SACL is checked first",
        50 => "no right is asked for",
        51 => "bit 26 or 27 is set in the rights that are asked for",
        60 => "a read failed; every line that had ended is answered",
        61 => "the output is a closed pipe or a full disk; nothing is written after it",
        62 => "2^40 reads without an end",
        70 => "an argument beside the descriptor or the text is invalid",
        71 => "the output is too small; the call says how many bytes it needs",
        72 => "malloc failed",
        73 => "the change can't be made",
        _ => "",
    }
}
