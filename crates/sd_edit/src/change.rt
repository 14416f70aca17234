//! What a descriptor can be edited by.

use crate::matching::Match;
use crate::setting::Setting;
use sd_ace::Ace;
use sd_parts::Which;
use sd_sid::Sid;

/// Where an ACE is put.
#[derive(Clone, Copy)]
pub enum Place {
    /// In front of the ACE that has this place, from 0 on. The number of ACEs is the end.
    At(u32),
    End,
    /// Behind the last ACE of no higher rank.
    ByOrder,
}

/// What is done with the ACEs of an ACL that is a list.
#[derive(Clone, Copy)]
pub enum ListChange {
    Put(Place, Ace),
    Take(u32),
    Replace(u32, Ace),
    TakeEach(Match),
    SetEach(Match, Setting),
}

/// What an ACL becomes.
#[derive(Clone, Copy)]
pub enum AclState {
    Absent,
    Null,
    /// A list without ACEs.
    List,
}

/// What is done with an ACL.
#[derive(Clone, Copy)]
pub enum AclChange {
    List(ListChange),
    /// Its ACEs come into order.
    Order,
    State(AclState),
}

/// A change of a descriptor.
#[derive(Clone, Copy)]
pub enum Change {
    Acl(Which, AclChange),
    Owner(Option<Sid>),
    Group(Option<Sid>),
    /// Bits of the control word that are set, and those that are cleared.
    Control(u16, u16),
}
