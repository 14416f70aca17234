//! ACLs of what is taken and what is inherited, built.

ghost use Rattle.std.specs.Prelude.{◌≡◌, ◌≤◌, ◌<◌, ◌+◌, ◌^◌, ◌↔◌, [], ◌++◌, length, IsErr, IfOk, OnOk, MatchOption};
ghost use Rattle.sd_acl_view.specs.Acl.{aces_size, acl_size};
ghost use Rattle.sd_builder.specs.Builds.{Builds};
ghost use Rattle.sd_builder.specs.Draft.{CanBegin, Draft, is_present, open_size};
ghost use Rattle.sd_view.specs.declared.acl_part.AclPart.TheVariants as acl;
ghost use Rattle.sd_parts.specs.declared.part.Which.TheVariants as which;
ghost use Rattle.sd_inherit.specs.Inner.Building.{HasOpen, all_given, gathered_from, given, listed};
ghost use Rattle.sd_inherit.specs.Inner.Building.{one_or_none, source_acl, with_aces, with_part};
ghost use Rattle.sd_inherit.specs.Copies.{copies};
ghost use Rattle.sd_inherit.specs.Derived.{dacl_beside, sacl_beside, sacl_of};
ghost use Rattle.sd_inherit.specs.Origins.{gives, giving};
ghost use Rattle.sd_inherit.specs.declared.origin.Giver.TheVariants as giver;

use crate::copies::{Copies, copies_of, no_copy};
use crate::origin::Giver;
use crate::plan::Plan;
use crate::taken::taken_of;
use sd_acl_view::{AceView, Aces};
use sd_buffer::SdBuf;
use sd_builder::{AclTooLarge, Builder, ChangedAce};
use sd_kinds::{CONTAINER_INHERIT, OBJECT_INHERIT, has_flag};
use sd_parts::Which;
use sd_view::AclPart;

/// The ACLs that a new ACL is gathered from, and the plan that says what their ACEs give.
#[derive(Drop)]
pub struct AclSources<'a> {
    pub plan: &'a Plan,
    pub creators: AclPart<'a>,
    pub parents: AclPart<'a>,
}

impl<'a> AclSources<'a> {
    /// Appends the new SACL, if there is one, and returns whether there is one.
    pub fn put_sacl(&self, builder: &mut Builder, buf: &mut SdBuf) -> Result<bool, AclTooLarge>
        requires { (t : Draft) × Builds builder.old buf.old t × CanBegin which.Sacl t.parts }
        ensures ok { (t : Draft) → Builds builder.old buf.old t → CanBegin which.Sacl t.parts
            → OnOk result (Builds builder.new buf.new
            (with_part which.Sacl (sacl_beside self.now.creators (gathered_from self.now)) t)) }
        ensures stands { IfOk result
            (λ stands. stands ≡ is_present (sacl_beside self.now.creators (gathered_from self.now))) }
        ensures full { IsErr result ↔ (2 ^ 16 ≤ acl_size (gathered_from self.now)) }
    {
        match &self.creators {
            AclPart::Absent => self.put_copied_sacl(builder, buf),
            AclPart::Null => {
                builder.null_acl(buf, Which::Sacl);
                Ok(true)
            }
            AclPart::List(_) => {
                self.put_both(builder, buf, Which::Sacl)?;
                Ok(true)
            }
        }
    }

    // The same where the creator has none: there is a SACL if there is a copy.
    fn put_copied_sacl(&self, builder: &mut Builder, buf: &mut SdBuf) -> Result<bool, AclTooLarge>
        requires { (t : Draft) × Builds builder.old buf.old t × CanBegin which.Sacl t.parts }
        ensures ok { (t : Draft) → Builds builder.old buf.old t → CanBegin which.Sacl t.parts
            → OnOk result
            (Builds builder.new buf.new (with_part which.Sacl (sacl_of (given giver.Parent self.now)) t)) }
        ensures stands { IfOk result (λ stands. stands ≡ is_present (sacl_of (given giver.Parent self.now))) }
        ensures full { IsErr result ↔ (2 ^ 16 ≤ acl_size (given giver.Parent self.now)) }
    {
        let AclPart::List(acl) = &self.parents else {
            return Ok(false);
        };
        let (giver, plan) = (Giver::Parent, self.plan);
        let mut aces = acl.aces();
        while let Some(ace) = aces.next() {
            let first = inherited_from(plan, &ace);
            if !first.is_empty() {
                AceSource { giver, plan, aces }.put_sacl_after(builder, buf, &first)?;
                return Ok(true);
            }
        }
        Ok(false)
    }

    /// Appends the new DACL.
    pub fn put_dacl(&self, builder: &mut Builder, buf: &mut SdBuf) -> Result<(), AclTooLarge>
        requires { (t : Draft) × Builds builder.old buf.old t × CanBegin which.Dacl t.parts }
        ensures ok { (t : Draft) → Builds builder.old buf.old t → CanBegin which.Dacl t.parts
            → OnOk result (Builds builder.new buf.new
            (with_part which.Dacl (dacl_beside self.now.creators (gathered_from self.now)) t)) }
        ensures full { IsErr result ↔ (2 ^ 16 ≤ acl_size (gathered_from self.now)) }
    {
        match &self.creators {
            AclPart::Null => {
                builder.null_acl(buf, Which::Dacl);
                Ok(())
            }
            AclPart::Absent | AclPart::List(_) => self.put_both(builder, buf, Which::Dacl),
        }
    }

    // Appends an ACL of what is taken, and then what is inherited. Inlined with what it calls, so that each loop knows
    // the giver of its ACEs.
    #[inline(always)]
    fn put_both(
        &self,
        builder: &mut Builder,
        buf: &mut SdBuf,
        which: Which,
    ) -> Result<(), AclTooLarge>
        requires { (t : Draft) × Builds builder.old buf.old t × CanBegin which t.parts }
        ensures ok { (t : Draft) → Builds builder.old buf.old t → CanBegin which t.parts
            → OnOk result (Builds builder.new buf.new
            (with_part which (acl.List (given giver.Creator self.now ++ given giver.Parent self.now)) t)) }
        ensures full { IsErr result
            ↔ (2 ^ 16 ≤ acl_size (given giver.Creator self.now ++ given giver.Parent self.now)) }
    {
        builder.begin_acl(buf, which);
        self.put_given(builder, buf, Giver::Creator)?;
        self.put_given(builder, buf, Giver::Parent)?;
        builder.end_acl(buf);
        Ok(())
    }

    // Appends what the ACL of one descriptor gives.
    #[inline(always)]
    #[tactic(auto, using(crate::proofs::DerivedLaws::given_flat))]
    fn put_given(
        &self,
        builder: &mut Builder,
        buf: &mut SdBuf,
        giver: Giver,
    ) -> Result<(), AclTooLarge>
        requires { (t : Draft) × Builds builder.old buf.old t × HasOpen t }
        ensures ok { (t : Draft) → Builds builder.old buf.old t
            → OnOk result (Builds builder.new buf.new (with_aces (given giver self.now) t)) }
        ensures full { (t : Draft) → Builds builder.old buf.old t → HasOpen t
            → (IsErr result ↔ (2 ^ 16 ≤ open_size t.parts + aces_size (given giver self.now))) }
    {
        let plan = self.plan;
        match self.acl(giver) {
            AclPart::List(acl) => {
                let aces = acl.aces();
                AceSource { giver, plan, aces }.put_each(builder, buf)
            }
            AclPart::Absent | AclPart::Null => Ok(()),
        }
    }

    /// The ACEs of one descriptor that the new ACL is made of, if it has a list.
    pub fn aces(&self, giver: Giver) -> Option<Aces<'a>>
        ensures { MatchOption result (giving giver self.now.creators self.now.parents ≡ [])
            (λ aces. (aces ≡ giving giver self.now.creators self.now.parents) × (length aces < 2 ^ 16)) }
    {
        if matches!(self.creators, AclPart::Null) {
            return None;
        }
        match self.acl(giver) {
            AclPart::List(acl) => Some(acl.aces()),
            AclPart::Absent | AclPart::Null => None,
        }
    }

    // The ACL of one descriptor.
    fn acl(&self, giver: Giver) -> &AclPart<'a>
        ensures { result.now ≡ source_acl giver self.now }
    {
        match giver {
            Giver::Creator => &self.creators,
            Giver::Parent => &self.parents,
        }
    }
}

/// ACEs of one of the two ACLs, with the plan.
#[derive(Drop)]
pub struct AceSource<'a> {
    pub giver: Giver,
    pub plan: &'a Plan,
    pub aces: Aces<'a>,
}

impl AceSource<'_> {
    // Appends the SACL: the first copies, and then what each ACE gives.
    fn put_sacl_after(
        self,
        builder: &mut Builder,
        buf: &mut SdBuf,
        first: &Copies<'_>,
    ) -> Result<(), AclTooLarge>
        requires { (t : Draft) × Builds builder.old buf.old t × CanBegin which.Sacl t.parts }
        ensures ok { (t : Draft) → Builds builder.old buf.old t → CanBegin which.Sacl t.parts
            → OnOk result (Builds builder.new buf.new
            (with_part which.Sacl (acl.List (listed first.now ++ all_given self.entry)) t)) }
        ensures full { IsErr result ↔ (2 ^ 16 ≤ acl_size (listed first.now ++ all_given self.entry)) }
    {
        builder.begin_acl(buf, Which::Sacl);
        put_copies(builder, buf, first)?;
        self.put_each(builder, buf)?;
        builder.end_acl(buf);
        Ok(())
    }

    // Appends what each ACE gives.
    #[inline(always)]
    fn put_each(self, builder: &mut Builder, buf: &mut SdBuf) -> Result<(), AclTooLarge>
        requires { (t : Draft) × Builds builder.old buf.old t × HasOpen t }
        ensures ok { (t : Draft) → Builds builder.old buf.old t
            → OnOk result (Builds builder.new buf.new (with_aces (all_given self.entry) t)) }
        ensures full { (t : Draft) → Builds builder.old buf.old t → HasOpen t
            → (IsErr result ↔ (2 ^ 16 ≤ open_size t.parts + aces_size (all_given self.entry))) }
    {
        let AceSource { giver, plan, aces } = self;
        for ace in aces {
            put_copies(builder, buf, &given_by(giver, plan, &ace))?;
        }
        Ok(())
    }
}

/// What one ACE gives.
#[inline(always)]
pub fn given_by<'a>(giver: Giver, plan: &'a Plan, ace: &'a AceView<'a>) -> Copies<'a>
    ensures { listed result ≡ gives giver plan.now ace.now }
{
    match giver {
        Giver::Creator => taken_of(plan, ace),
        Giver::Parent => inherited_from(plan, ace),
    }
}

// The copies of one ACE. Many ACEs are for their container alone, so the flags are looked at before the rest is read.
#[tactic(auto, unfolding(crate::specs::Copies::copies))]
fn inherited_from<'a>(plan: &'a Plan, ace: &'a AceView<'a>) -> Copies<'a>
    ensures { listed result ≡ copies plan.now ace.now }
{
    let flags = ace.flags();
    if !has_flag(flags, OBJECT_INHERIT) && !has_flag(flags, CONTAINER_INHERIT) {
        return no_copy();
    }
    copies_of(plan, ace)
}

fn put_copies(
    builder: &mut Builder,
    buf: &mut SdBuf,
    copies: &Copies<'_>,
) -> Result<(), AclTooLarge>
    requires { (t : Draft) × Builds builder.old buf.old t × HasOpen t }
    ensures ok { (t : Draft) → Builds builder.old buf.old t
        → OnOk result (Builds builder.new buf.new (with_aces (listed copies.now) t)) }
    ensures full { (t : Draft) → Builds builder.old buf.old t → HasOpen t
        → (IsErr result ↔ (2 ^ 16 ≤ open_size t.parts + aces_size (listed copies.now))) }
{
    put_copy(builder, buf, &copies.first)?;
    put_copy(builder, buf, &copies.second)
}

fn put_copy(
    builder: &mut Builder,
    buf: &mut SdBuf,
    copy: &Option<ChangedAce<'_>>,
) -> Result<(), AclTooLarge>
    requires { (t : Draft) × Builds builder.old buf.old t × HasOpen t }
    ensures ok { (t : Draft) → Builds builder.old buf.old t
        → OnOk result (Builds builder.new buf.new (with_aces (one_or_none copy.now) t)) }
    ensures full { (t : Draft) → Builds builder.old buf.old t → HasOpen t
        → (IsErr result ↔ (2 ^ 16 ≤ open_size t.parts + aces_size (one_or_none copy.now))) }
{
    match copy {
        None => Ok(()),
        Some(ace) => builder.changed_ace(buf, ace),
    }
}
