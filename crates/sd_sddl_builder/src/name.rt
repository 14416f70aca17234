//! A SID that two letters name everywhere, at the front of a text.

ghost use Rattle.std.specs.Prelude.{◌≤◌, IfSome};
ghost use Rattle.sd_sddl_builder.specs.NamedSid.{NameAt};

use sd_alias::{MOST_KNOWN, WellKnown, named_known};

/// The name at the front of a text, and what follows its two letters. `None` means only that the general reader must
/// decide.
#[inline(always)]
pub fn front_name(text: &[u8]) -> Option<(&'static WellKnown, &[u8])>
    ensures found { IfSome result (λ r. NameAt text.now r.0.now r.1.now) }
    ensures count { IfSome result (λ r. r.0.now.count ≤ 6) }
{
    if text.len() < 2 || !text[0].is_ascii_alphabetic() || !text[1].is_ascii_alphabetic() {
        return None;
    }
    let name = named_known(text[0], text[1])?;
    if name.count > MOST_KNOWN {
        return None;
    }
    Some((name, &text[2..]))
}
