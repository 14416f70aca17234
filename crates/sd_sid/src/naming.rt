//! How SIDs are named in what is printed.

ghost use Rattle.std.specs.Prelude.{◌≡◌};
ghost use Rattle.sd_sid.specs.Naming.{alias_by};

use crate::sid::Sid;

/// How SIDs are printed: by aliases, with those of the domain if there is one, or by numbers alone.
///
/// ```
/// let naming = Naming { domain: Sid::new(5, &[21, 1, 2, 3]), numeric: false };
/// let admins = Sid::new(5, &[21, 1, 2, 3, 512]).expect(&rt, "a SID");
/// assert!(rt; naming.alias(&admins) == Some(*b"DA"));
/// ```
#[derive(Clone, Copy)]
pub struct Naming {
    pub domain: Option<Sid>,
    pub numeric: bool,
}

impl Naming {
    /// The alias by which a SID is printed (MS-DTYP 2.5.1.1). None if it has none, or if numbers alone are asked for.
    #[inline(always)]
    pub fn alias(&self, sid: &Sid) -> Option<[u8; 2]>
        ensures { result ≡ alias_by self.now sid.now }
    {
        if self.numeric {
            return None;
        }
        sid.alias(self.domain.as_ref())
    }
}
