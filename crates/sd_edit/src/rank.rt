//! The order of the ACEs of an ACL.

ghost use Rattle.std.specs.Prelude.{◌≡◌, List, ℕ, ◌∷◌, ◌++◌, [], ◌≤◌, Some, None, nat_lt, if◌then◌else◌};
ghost use Rattle.std.specs.Option.{option_or};
ghost use Rattle.sd_edit.specs.Order.{first_fall, is_deny, own_rank, rank_by, Seen};

use sd_kinds::{AceKind, INHERITED, has_flag};
use sd_parts::Which;

/// The rank of an ACE. In a DACL own denies have 0, and other own ACEs 1; in a SACL own ACEs have 0. Inherited ones
/// have 2.
pub fn rank_of(which: Which, kind: AceKind, flags: u8) -> u8
    ensures value { result ≡ rank_by which kind flags }
    ensures most { result ≤ 2 }
{
    if has_flag(flags, INHERITED) {
        return 2;
    }
    own_rank(which, kind)
}

fn own_rank(which: Which, kind: AceKind) -> u8
    ensures value { result ≡ own_rank which kind }
    ensures most { result ≤ 2 }
{
    match which {
        Which::Sacl => 0,
        Which::Dacl => { if is_deny(kind) { 0 } else { 1 } }
    }
}

fn is_deny(kind: AceKind) -> bool
    ensures { result ≡ is_deny kind }
{
    matches!(kind, AceKind::Deny | AceKind::ObjectDeny)
}

/// What is known of the order of ACEs that were seen one after the other.
#[derive(Clone, Copy)]
pub struct Order {
    last: u8,
    count: usize,
    fall: Option<usize>,
}

impl Order {
    /// Before the first ACE.
    pub fn new() -> Order
        ensures { Seen [] result }
    {
        Order {
            last: 0,
            count: 0,
            fall: None,
        }
    }

    /// The next ACE, by its rank.
    pub fn see(&self, rank: u8) -> Order
        requires { self.now.count ≤ 65535 }
        ensures { (ranks : List ℕ) → Seen ranks self.now → Seen (ranks ++ rank ∷ []) result }
    {
        Order {
            last: rank,
            count: self.count + 1,
            fall: self.fall_with(rank),
        }
    }

    // The first fall, with one rank more.
    fn fall_with(&self, rank: u8) -> Option<usize>
        ensures { result ≡ option_or self.now.fall (if nat_lt rank self.now.last then Some self.now.count else None) }
    {
        if self.fall.is_some() {
            return self.fall;
        }
        if rank < self.last {
            Some(self.count)
        } else {
            None
        }
    }

    /// The place of the first ACE whose rank is below that of the one before.
    pub fn fall(&self) -> Option<usize>
        ensures { (ranks : List ℕ) → Seen ranks self.now → result ≡ first_fall ranks }
    {
        self.fall
    }
}
