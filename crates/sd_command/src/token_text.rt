//! The text of a token: SIDs parted by commas.
ghost use Rattle.std.specs.Prelude.{◌≡◌, [], option_map};
ghost use Rattle.std.specs.Option.{option_copied};
ghost use Rattle.sd_command.specs.TokenText as specs;
ghost use Rattle.sd_command.specs.Inner.Adding.{with_entry};

use sd_sid::Sid;
use sd_token::{EntryKind, Token};

// Adds the entries of all pieces. None where one does not read, or finds no room.
pub(crate) fn add_entries(text: &str, domain: Option<&Sid>, token: &mut Token) -> Option<()>
    requires empty { token.old.holder.entries ≡ [] }
    ensures entries { option_map (λ _. token.new.holder.entries) result
        ≡ specs.entries_read (option_copied domain.entry) text.now }
    ensures compared { token.new.compared ≡ token.old.compared }
{
    let mut rest = text;
    while let Some((piece, others)) = rest.split_once(',') {
        add_entry(piece, domain, token)?;
        rest = others;
    }
    add_entry(rest, domain, token)
}

fn add_entry(piece: &str, domain: Option<&Sid>, token: &mut Token) -> Option<()>
    ensures entries { option_map (λ _. token.new.holder.entries) result
        ≡ with_entry token.old.holder.entries (specs.entry_reads (option_copied domain.entry) piece.now) }
    ensures compared { token.new.compared ≡ token.old.compared }
{
    let (text, kind) = marked(piece.as_bytes());
    let sid = sid_under(text, domain)?;
    token.add(sid, kind).ok()
}

// An exclamation mark before an entry makes it deny-only.
fn marked(piece: &[u8]) -> (&[u8], EntryKind)
    ensures { (result.0.now, result.1) ≡ specs.marked piece.now }
{
    match piece.split_first() {
        Some((b'!', text)) => (text, EntryKind::DenyOnly),
        _ => (piece, EntryKind::Enabled),
    }
}

pub(crate) fn sid_under(text: &[u8], domain: Option<&Sid>) -> Option<Sid>
    ensures { result ≡ specs.sid_under (option_copied domain.entry) text.now }
{
    match Sid::from_text(text, domain) {
        Ok(sid) => Some(sid),
        Err(_) => None,
    }
}
