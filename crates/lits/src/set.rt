// Sets of literals, each in ascending order of the codes. The two literals of a variable are neighbours there, so that one
// pass tells a tautology, and one pass over two sets tells whether one is part of the other.

ghost use Rattle.std.specs.Prelude.{◌≡◌, ◌≤◌, ℕ, length, IsTrue, IsOk, IfOk, ◌↔◌};
ghost use Rattle.std.specs.List.Sorted.{IsStrictlyIncreasing};
ghost use Rattle.std.specs.Ordering.{nat_cmp};
ghost use Rattle.std.specs.Cmp.Lexicographic.{pointwise, slice_cmp};
ghost use Rattle.lits.specs.Clause.{has, is_part, is_tautology, set_of};

use crate::Lit;
use smallvec::SmallVec;
use std::alloc::{AllocError, Global};
use std::cmp::Ordering;
use std::marker::Model;

/// A set of literals, in ascending order of their codes. Up to 16 lie in the value itself, without an allocation.
#[derive(Debug, Drop)]
pub struct LitSet {
    items: SmallVec<Lit, 16>,
}

impl Model for LitSet {
    ghost use Rattle.std.specs.Prelude.{ℕ, List};
    ghost use Rattle.std.specs.List.Sorted.{IsStrictlyIncreasing};

    ghost Value = { List ℕ };

    ghost view = { λ s. s.items.items };

    ghost invariant = { λ s. IsStrictlyIncreasing s.items.items };
}

impl LitSet {
    /// The literals of a list, without order and repeats. It takes no memory for a list of at most 16 literals, and then
    /// it answers Ok.
    pub fn of(alloc: Global, lits: &[Lit]) -> Result<LitSet, AllocError>
        ensures members { IfOk result (λ s. (l : ℕ) → has s l ≡ has lits.now l) }
        ensures increasing { IfOk result IsStrictlyIncreasing }
        ensures set { IfOk result (λ s. s ≡ set_of lits.now) }
        ensures short { length lits.now ≤ 16 → IsOk result }
    {
        let mut items = SmallVec::from_slice(alloc, lits)?;
        items.sort_unstable();
        items.dedup();
        Ok(LitSet { items })
    }

    /// An equal set. It takes no memory for a set of at most 16 literals, and then it answers Ok.
    pub fn copy(&self) -> Result<LitSet, AllocError>
        ensures equal { IfOk result (λ s. s ≡ self.now) }
        ensures short { length self.now ≤ 16 → IsOk result }
    {
        let items = SmallVec::from_slice(*self.items.allocator(), self.items.as_slice())?;
        Ok(LitSet { items })
    }

    /// Whether a literal is in the set.
    pub fn has(&self, l: Lit) -> bool
        ensures { result ≡ has self.now l }
    {
        self.as_slice().binary_search(&l).is_ok()
    }

    /// Whether each literal of the set is in the other.
    pub fn is_part_of(&self, other: &LitSet) -> bool
        ensures { result ≡ is_part self.now other.now }
    {
        is_part_sorted(self.as_slice(), other.as_slice())
    }

    /// Whether two literals of the set are opposite.
    pub fn tautology(&self) -> bool
        ensures { result ≡ is_tautology self.now }
    {
        has_opposites(self.as_slice())
    }

    /// The literals, in ascending order of their codes.
    pub fn as_slice(&self) -> &[Lit]
        ensures literals { result.now ≡ self.now }
        ensures increasing { IsStrictlyIncreasing self.now }
    {
        self.items.as_slice()
    }

    /// How many there are.
    pub fn len(&self) -> usize
        ensures { result ≡ length self.now }
    {
        self.items.len()
    }

    /// Whether there is none.
    pub fn is_empty(&self) -> bool
        ensures { IsTrue result ↔ (length self.now ≡ 0) }
    {
        self.items.is_empty()
    }
}

impl PartialEq for LitSet {
    ghost use Rattle.std.specs.Prelude.{nat_eq};
    ghost use Rattle.std.specs.Cmp.{partial_equiv_from_equiv, nat_eq_equiv};
    ghost use Rattle.std.specs.Cmp.Lexicographic.{lists_per};

    ghost eq = { pointwise nat_eq };

    ghost laws = { lists_per (partial_equiv_from_equiv nat_eq_equiv) };

    fn eq(&self, other: &LitSet) -> bool {
        self.as_slice() == other.as_slice()
    }
}

impl Eq for LitSet {
    ghost use Rattle.std.specs.Cmp.{nat_eq_equiv};
    ghost use Rattle.std.specs.Cmp.Lexicographic.{lists_equiv};

    ghost laws = { lists_equiv nat_eq_equiv };
}

/// The order of the codes decides, from the least on; a front of a set comes before the set.
impl Ord for LitSet {
    ghost use Rattle.std.specs.Prelude.{refl};
    ghost use Rattle.std.specs.Cmp.{nat_cmp_total, unsigned_ties};
    ghost use Rattle.std.specs.Cmp.Lexicographic.{lists_total, lists_agrees, lists_ties};

    ghost cmp = { slice_cmp nat_cmp };

    ghost total = { lists_total nat_cmp_total };

    ghost matches_partial_cmp = { λ s t. refl };

    ghost matches_eq = { lists_ties nat_cmp unsigned_ties };

    fn cmp(&self, other: &LitSet) -> Ordering {
        self.as_slice().cmp(&other.as_slice())
    }
}

impl PartialOrd for LitSet {
    ghost use Rattle.std.specs.Prelude.{Some};
    ghost use Rattle.std.specs.Cmp.{po, nat_cmp_total, unsigned_ties};
    ghost use Rattle.std.specs.Cmp.Lexicographic.{lists_total, lists_ties};

    ghost partial_cmp = { λ s t. Some (slice_cmp nat_cmp s t) };

    ghost laws = { po (lists_total nat_cmp_total) (lists_ties nat_cmp unsigned_ties) };

    fn partial_cmp(&self, other: &LitSet) -> Option<Ordering> {
        Some(self.cmp(other))
    }
}

/// Whether each literal of the first list is in the second, where both ascend.
fn is_part_sorted(part: &[Lit], whole: &[Lit]) -> bool
    requires part { IsStrictlyIncreasing part.now }
    requires whole { IsStrictlyIncreasing whole.now }
    ensures { result ≡ is_part part.now whole.now }
{
    let mut next = 0;
    for l in whole {
        if next == part.len() {
            return true;
        }
        match part[next].cmp(l) {
            Ordering::Less => return false,
            Ordering::Equal => next += 1,
            Ordering::Greater => {}
        }
    }
    next == part.len()
}

/// Whether two literals of an ascending list are opposite: these are neighbours.
fn has_opposites(lits: &[Lit]) -> bool
    requires { IsStrictlyIncreasing lits.now }
    ensures { result ≡ is_tautology lits.now }
{
    for i in 1..lits.len() {
        if lits[i - 1].neg() == lits[i] {
            return true;
        }
    }
    false
}
