//! Which ACEs a change is for.

ghost use Rattle.std.specs.Prelude.{◌≡◌};
ghost use Rattle.sd_edit.specs.Matching.{agrees_in_numbers, agrees_in_types, agrees_kind, agrees_mask, agrees_sid};
ghost use Rattle.sd_edit.specs.Matching.{agrees_type, matches, same_guid};

use sd_ace::Ace;
use sd_kinds::AceKind;
use sd_sid::Sid;
use uuid::Uuid;

/// What an ACE is compared by. A field that is None is not compared.
#[derive(Clone, Copy)]
pub struct Match {
    pub sid: Option<Sid>,
    pub kind: Option<AceKind>,
    pub mask: Option<u32>,
    /// The object type that it has, or that it has none.
    pub object: Option<Option<Uuid>>,
    pub inherited: Option<Option<Uuid>>,
    /// The flags that it has among those of the mask beside.
    pub flags: u8,
    pub flags_mask: u8,
}

impl Match {
    /// Whether an ACE agrees in each field that is compared.
    #[tactic(auto, unfolding(crate::specs::Matching::matches))]
    pub fn matches(&self, ace: &Ace) -> bool
        ensures { result ≡ matches self.now ace.now }
    {
        agrees_sid(&self.sid, &ace.sid())
            && self.agrees_in_numbers(ace)
            && self.agrees_in_types(ace)
            && ace.flags() & self.flags_mask == self.flags
    }

    fn agrees_in_numbers(&self, ace: &Ace) -> bool
        ensures { result ≡ agrees_in_numbers self.now ace.now }
    {
        agrees_kind(self.kind, ace.kind()) && agrees_mask(self.mask, ace.mask())
    }

    fn agrees_in_types(&self, ace: &Ace) -> bool
        ensures { result ≡ agrees_in_types self.now ace.now }
    {
        agrees_type(&self.object, &ace.object()) && agrees_type(&self.inherited, &ace.inherited())
    }
}

fn agrees_sid(wanted: &Option<Sid>, sid: &Sid) -> bool
    ensures { result ≡ agrees_sid wanted.now sid.now }
{
    match wanted {
        None => true,
        Some(wanted) => wanted.is(sid.authority(), sid.subs()),
    }
}

fn agrees_kind(wanted: Option<AceKind>, kind: AceKind) -> bool
    ensures { result ≡ agrees_kind wanted kind }
{
    match wanted {
        None => true,
        Some(wanted) => wanted == kind,
    }
}

fn agrees_mask(wanted: Option<u32>, mask: u32) -> bool
    ensures { result ≡ agrees_mask wanted mask }
{
    match wanted {
        None => true,
        Some(wanted) => wanted == mask,
    }
}

fn agrees_type(wanted: &Option<Option<Uuid>>, guid: &Option<Uuid>) -> bool
    ensures { result ≡ agrees_type wanted.now guid.now }
{
    match wanted {
        None => true,
        Some(wanted) => same_guid(wanted, guid),
    }
}

fn same_guid(one: &Option<Uuid>, other: &Option<Uuid>) -> bool
    ensures { result ≡ same_guid one.now other.now }
{
    match (*one, *other) {
        (None, None) => true,
        (Some(one), Some(other)) => one == other,
        (None, Some(_)) | (Some(_), None) => false,
    }
}
