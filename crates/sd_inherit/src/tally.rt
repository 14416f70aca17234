//! How many ACEs a new ACL has, and whether it is too large.

ghost use Rattle.std.specs.Prelude.{◌≡◌, ◌≤◌, ◌^◌, ◌↔◌, length, is_err, IsErr, IfOk};
ghost use Rattle.sd_acl_view.specs.Acl.{acl_size};
ghost use Rattle.sd_inherit.specs.Inner.Building.{all_given, gathered_from, listed, one_or_none};
ghost use Rattle.sd_inherit.specs.Inner.Counting.{Counts, IsTally, given_beside};

use crate::copies::Copies;
use crate::inherited::{AceSource, AclSources, given_by};
use crate::origin::Giver;
use sd_builder::{AclTooLarge, ChangedAce};
use sd_parts::{ACL_HEADER_SIZE, MOST_ACL_SIZE};

/// ACEs that are counted, and the size of an ACL with them.
#[derive(Clone, Copy)]
pub struct Tally {
    pub count: usize,
    pub size: usize,
}

impl AclSources<'_> {
    /// How many ACEs the new ACL has, unless it is too large.
    pub fn count(&self) -> Result<usize, AclTooLarge>
        ensures full { IsErr result ↔ (2 ^ 16 ≤ acl_size (gathered_from self.now)) }
        ensures count { IfOk result (λ n. n ≡ length (gathered_from self.now)) }
        ensures most { IfOk result (λ n. n ≤ 4095) }
    {
        let mut tally = Tally {
            count: 0,
            size: ACL_HEADER_SIZE,
        };
        self.count_given(&mut tally, Giver::Creator)?;
        self.count_given(&mut tally, Giver::Parent)?;
        Ok(tally.count)
    }

    // Counts what the ACL of one descriptor gives.
    fn count_given(&self, tally: &mut Tally, giver: Giver) -> Result<(), AclTooLarge>
        requires { IsTally tally.old }
        ensures { Counts (given_beside giver self.now) tally.old tally.new (is_err result) }
    {
        match self.aces(giver) {
            Some(aces) => AceSource {
                giver,
                plan: self.plan,
                aces,
            }
            .count_each(tally),
            None => Ok(()),
        }
    }
}

impl AceSource<'_> {
    // Counts what each ACE gives.
    fn count_each(self, tally: &mut Tally) -> Result<(), AclTooLarge>
        requires { IsTally tally.old }
        ensures { Counts (all_given self.entry) tally.old tally.new (is_err result) }
    {
        let AceSource { giver, plan, aces } = self;
        for ace in aces {
            tally.add(&given_by(giver, plan, &ace))?;
        }
        Ok(())
    }
}

impl Tally {
    // Counts the copies of one ACE.
    fn add(&mut self, copies: &Copies<'_>) -> Result<(), AclTooLarge>
        requires { IsTally self.old }
        ensures { Counts (listed copies.now) self.old self.new (is_err result) }
    {
        self.add_one(&copies.first)?;
        self.add_one(&copies.second)
    }

    fn add_one(&mut self, copy: &Option<ChangedAce<'_>>) -> Result<(), AclTooLarge>
        requires { IsTally self.old }
        ensures { Counts (one_or_none copy.now) self.old self.new (is_err result) }
    {
        let Some(ace) = copy else {
            return Ok(());
        };
        let size = self.size + usize::from(ace.size());
        if size > MOST_ACL_SIZE {
            return Err(AclTooLarge);
        }
        self.size = size;
        self.count += 1;
        Ok(())
    }
}
