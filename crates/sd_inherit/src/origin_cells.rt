//! The origin of each ACE of the descriptor of a new object.

ghost use Rattle.std.specs.Prelude.{◌≡◌, ◌≤◌, ◌<◌, ◌+◌, ◌^◌, length, take, map, None, Some, IfOk, OnErr, MatchResult};
ghost use Rattle.std.specs.Option.{option_copied};
ghost use Rattle.sd_inherit.specs.Derived.{derive_fault, derived};
ghost use Rattle.sd_inherit.specs.Inner.Building.{listed, one_or_none};
ghost use Rattle.sd_inherit.specs.Inner.Counting.{Writes, all_origins, gathered_origins, given_origins};
ghost use Rattle.sd_inherit.specs.OriginLaws.{Copied, Counted, Rising};
ghost use Rattle.sd_inherit.specs.Origins.{ace_counts, is_creator, new_origins, origin_of, origins_answer};

use crate::copies::Copies;
use crate::derivation::{DeriveFault, sources};
use crate::inherited::{AceSource, AclSources, given_by};
use crate::origin::{AceCounts, AceOrigin, Giver, OriginFault};
use crate::plan::Plan;
use sd_builder::ChangedAce;
use sd_kinds::{INHERIT_ONLY, has_flag};
use sd_parts::Which;
use sd_view::SdView;

/// Writes where each ACE of the descriptor that `derive` gives comes from. The origins stand at the front of the cells,
/// in the order of the ACEs, and the answer is how many there are. After a fault the cells are unchanged.
///
/// ```
/// let plan = Plan {
///     target: Target::Container,
///     owner: Sid::new(5, &[32, 544]).expect(&rt, "a SID"),
///     group: Sid::new(5, &[18]).expect(&rt, "a SID"),
///     mapping: Mapping::FILE,
/// };
/// let mut buf = SdBuf::new(rt.alloc()).expect(&rt, "memory");
/// assert!(rt; read_sddl(b"D:(A;;FA;;;BA)(A;CI;GR;;;BU)", None, &mut buf) == Ok(()));
/// let parent = read(buf.bytes()).expect(&rt, "a descriptor");
/// let none = AceOrigin { place: 0, from_creator: false, inherit_only: false };
/// let mut dacl = [none; 4];
/// let counts = origins(&parent, None, &plan, &mut [], &mut dacl);
/// assert!(rt; counts == Ok(AceCounts { sacl: 0, dacl: 2 }));
/// // The second ACE gives one for the folder, and one to hand on.
/// assert!(rt; dacl[0] == AceOrigin { place: 1, from_creator: false, inherit_only: false });
/// assert!(rt; dacl[1] == AceOrigin { place: 1, from_creator: false, inherit_only: true });
/// ```
#[tactic(auto, using(crate::proofs::OriginFacts::cells_told))]
pub fn origins(
    parent: &SdView,
    creator: Option<&SdView>,
    plan: &Plan,
    sacl: &mut [AceOrigin],
    dacl: &mut [AceOrigin],
) -> Result<AceCounts, OriginFault>
    ensures answer { result
        ≡ origins_answer parent.now (option_copied creator.entry) plan.now (length sacl.old) (length dacl.old) }
    ensures sacl { IfOk result
        (λ n. take n.sacl sacl.new ≡ new_origins Which.Sacl parent.now (option_copied creator.entry) plan.now) }
    ensures dacl { IfOk result
        (λ n. take n.dacl dacl.new ≡ new_origins Which.Dacl parent.now (option_copied creator.entry) plan.now) }
    ensures kept { OnErr result ((sacl.new ≡ sacl.old) × (dacl.new ≡ dacl.old)) }
    ensures most { IfOk result (λ n. (n.sacl ≤ 4095) × (n.dacl ≤ 4095)) }
    // The ACE at a place is the copy that its origin names.
    ensures copied { (w : Which) → Copied w parent.now (option_copied creator.entry) plan.now }
    // They rise strictly, so equal ACEs have origins of their own.
    ensures rising { (w : Which) → Rising w parent.now (option_copied creator.entry) plan.now }
    // None is left out, and none is there twice.
    ensures counted { (w : Which) → Counted w parent.now (option_copied creator.entry) plan.now }
{
    write_origins(parent, creator, plan, sacl, dacl)
}

// The same, without the laws.
fn write_origins(
    parent: &SdView,
    creator: Option<&SdView>,
    plan: &Plan,
    sacl: &mut [AceOrigin],
    dacl: &mut [AceOrigin],
) -> Result<AceCounts, OriginFault>
    ensures answer { result
        ≡ origins_answer parent.now (option_copied creator.entry) plan.now (length sacl.old) (length dacl.old) }
    ensures sacl { IfOk result
        (λ n. take n.sacl sacl.new ≡ new_origins Which.Sacl parent.now (option_copied creator.entry) plan.now) }
    ensures dacl { IfOk result
        (λ n. take n.dacl dacl.new ≡ new_origins Which.Dacl parent.now (option_copied creator.entry) plan.now) }
    ensures kept { OnErr result ((sacl.new ≡ sacl.old) × (dacl.new ≡ dacl.old)) }
    ensures most { IfOk result (λ n. (n.sacl ≤ 4095) × (n.dacl ≤ 4095)) }
{
    let counts = match count_aces(parent, creator, plan) {
        Ok(counts) => counts,
        Err(fault) => return Err(OriginFault::Derive(fault)),
    };
    if sacl.len() < counts.sacl || dacl.len() < counts.dacl {
        return Err(OriginFault::TooSmall(counts));
    }
    sources(Which::Sacl, parent, creator, plan).put_new_origins(sacl);
    sources(Which::Dacl, parent, creator, plan).put_new_origins(dacl);
    Ok(counts)
}

// How many ACEs the derived ACLs have.
fn count_aces(
    parent: &SdView,
    creator: Option<&SdView>,
    plan: &Plan,
) -> Result<AceCounts, DeriveFault>
    ensures fault { MatchResult result (λ _. derive_fault parent.now (option_copied creator.entry) plan.now ≡ None)
        (λ f. derive_fault parent.now (option_copied creator.entry) plan.now ≡ Some f) }
    ensures counts { IfOk result (λ n. n ≡ ace_counts (derived parent.now (option_copied creator.entry) plan.now)) }
    ensures most { IfOk result (λ n. (n.sacl ≤ 4095) × (n.dacl ≤ 4095)) }
{
    let Ok(sacl) = sources(Which::Sacl, parent, creator, plan).count() else {
        return Err(DeriveFault::DerivedTooLarge(Which::Sacl));
    };
    let Ok(dacl) = sources(Which::Dacl, parent, creator, plan).count() else {
        return Err(DeriveFault::DerivedTooLarge(Which::Dacl));
    };
    Ok(AceCounts { sacl, dacl })
}

impl AclSources<'_> {
    // Writes the origins of the new ACL's ACEs to the front of the cells.
    fn put_new_origins(&self, cells: &mut [AceOrigin])
        requires { length (gathered_origins self.now) ≤ length cells.old }
        ensures { take (length (gathered_origins self.now)) cells.new ≡ gathered_origins self.now }
    {
        let end = self.put_given_origins(cells, 0, Giver::Creator);
        self.put_given_origins(cells, end, Giver::Parent);
    }

    // Writes the origins of what the ACL of one descriptor gives, from a cell on, and returns which cell follows them.
    fn put_given_origins(&self, cells: &mut [AceOrigin], at: usize, giver: Giver) -> usize
        requires { at + length (given_origins giver self.now) ≤ length cells.old }
        ensures { Writes (given_origins giver self.now) at cells.old result cells.new }
    {
        let plan = self.plan;
        match self.aces(giver) {
            Some(aces) => AceSource { giver, plan, aces }.put_origins(cells, at),
            None => at,
        }
    }
}

impl AceSource<'_> {
    // Writes the origins of what each ACE gives.
    fn put_origins(self, cells: &mut [AceOrigin], at: usize) -> usize
        requires few { length self.aces < 2 ^ 16 }
        requires room { at + length (all_origins self) ≤ length cells.old }
        ensures { Writes (all_origins self.entry) at cells.old result cells.new }
    {
        let AceSource { giver, plan, aces } = self;
        let mut end = at;
        let mut place: u16 = 0;
        for ace in aces {
            end = put_copies(cells, end, giver, place, &given_by(giver, plan, &ace));
            place += 1;
        }
        end
    }
}

// Writes the origins of what the ACE at a place gives.
fn put_copies(
    cells: &mut [AceOrigin],
    at: usize,
    giver: Giver,
    place: u16,
    copies: &Copies<'_>,
) -> usize
    requires { at + length (listed copies.now) ≤ length cells.old }
    ensures { Writes (map (origin_of giver place) (listed copies.now)) at cells.old result cells.new }
{
    let next = put_copy(cells, at, giver, place, &copies.first);
    put_copy(cells, next, giver, place, &copies.second)
}

fn put_copy(
    cells: &mut [AceOrigin],
    at: usize,
    giver: Giver,
    place: u16,
    copy: &Option<ChangedAce<'_>>,
) -> usize
    requires { at + length (one_or_none copy.now) ≤ length cells.old }
    ensures { Writes (map (origin_of giver place) (one_or_none copy.now)) at cells.old result cells.new }
{
    let Some(ace) = copy else {
        return at;
    };
    cells[at] = AceOrigin {
        place,
        from_creator: is_creator(giver),
        inherit_only: has_flag(ace.flags(), INHERIT_ONLY),
    };
    at + 1
}

fn is_creator(giver: Giver) -> bool
    ensures { result ≡ is_creator giver }
{
    matches!(giver, Giver::Creator)
}
