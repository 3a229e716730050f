//! Lists of literals, translated through a numbering of the file's variables.
//!
//! A side of a check reads a line's literals over the file's variables and works on their numbers. `Numbers` keeps the
//! numbering, and room for one translated list, which is used again for each line. A list that can bring a new variable is
//! taken by `number`; one that can't is looked up by `find`, which takes no memory for a list of at most 16 literals.
#![tactic(auto)]

ghost use Rattle.std.specs.Prelude.{◌≡◌, ℕ, ◌+◌, ◌≤◌, [], length, filter, not, IsTrue, IsOk, OnOk, IfOk};
ghost use Rattle.lits.specs.Literal.{max_var};
ghost use Rattle.lits.specs.Clause.{is_tautology};
ghost use Rattle.lits.specs.Numbering.{IsNumbering, is_known, are_known, dense_lits, with_lits, numbered_lits};
ghost use Rattle.smallvec.specs.SmallVec.{HasRoomFor};
ghost use Rattle.numbered_lits.specs.Numbers.{Continues, AreNumbers, known_front};

use lits::{Dense, Lit, LitSet};
use smallvec::SmallVec;
use std::alloc::{AllocError, Global};
use std::marker::Model;

/// Numbers for variables in the order in which they come, and the list of literals that was translated last.
///
/// Contracts see the variables, each once, and that list.
#[derive(Drop)]
pub struct Numbers {
    dense: Dense,
    lits: SmallVec<Lit, 16>,
}

impl Model for Numbers {
    ghost use Rattle.numbered_lits.specs.Numbers.{NumbersView, numbers_code};

    ghost Value = { NumbersView };

    ghost coded = { numbers_code };

    ghost view = { λ n. record { vars = n.dense; lits = n.lits.items } };
}

impl Numbers {
    /// No variable has a number. It takes no memory.
    pub fn new(alloc: Global) -> Numbers
        ensures vars { result.vars ≡ [] }
        ensures lits { result.lits ≡ [] }
    {
        Numbers {
            dense: Dense::new(alloc),
            lits: SmallVec::new(alloc),
        }
    }

    /// Translates a list, and gives each new variable the next number. An error, which means that memory ran out, may leave
    /// some of them with a number, and the list unknown.
    pub fn number(&mut self, lits: &[Lit]) -> Result<(), AllocError>
        ensures vars { OnOk result (self.new.vars ≡ with_lits self.old.vars lits.now) }
        ensures lits { OnOk result (self.new.lits ≡ numbered_lits self.old.vars lits.now) }
        ensures numbers { OnOk result (AreNumbers self.new.vars self.new.lits) }
        ensures continues { Continues self.old.vars self.new.vars }
    {
        self.lits.clear();
        number_all(&mut self.dense, &mut self.lits, lits)
    }

    /// Translates the literals of a list before the first whose variable has no number, and tells whether there is none such.
    /// It takes no memory for a list of at most 16 literals, and then it answers Ok.
    pub fn find(&mut self, lits: &[Lit]) -> Result<bool, AllocError>
        ensures vars { self.new.vars ≡ self.old.vars }
        ensures known { IfOk result (λ known. known ≡ are_known self.old.vars lits.now) }
        ensures lits { IfOk result (λ known. IsTrue known → self.new.lits ≡ dense_lits self.old.vars lits.now) }
        ensures front { OnOk result (self.new.lits ≡ dense_lits self.old.vars (known_front self.old.vars lits.now)) }
        ensures numbers { IfOk result (λ known. IsTrue known → AreNumbers self.new.vars self.new.lits) }
        ensures short { length lits.now ≤ 16 → IsOk result }
    {
        self.lits.clear();
        let _ = self.lits.capacity();
        self.lits.reserve(lits.len())?;
        Ok(find_all(&self.dense, &mut self.lits, lits))
    }

    /// Translates those literals of a list whose variables have numbers, and tells whether two of the others are opposite. It
    /// takes no memory for a list of at most 16 literals, and then it answers Ok.
    pub fn find_known(&mut self, lits: &[Lit]) -> Result<bool, AllocError>
        ensures vars { self.new.vars ≡ self.old.vars }
        ensures lits { OnOk result (self.new.lits ≡ dense_lits self.old.vars (filter (is_known self.old.vars) lits.now)) }
        ensures numbers { OnOk result (AreNumbers self.new.vars self.new.lits) }
        ensures clash { IfOk result (λ clash. clash ≡ is_tautology (filter (λ l. not (is_known self.old.vars l)) lits.now)) }
        ensures short { length lits.now ≤ 16 → IsOk result }
    {
        self.lits.clear();
        split_known(&self.dense, &mut self.lits, lits)
    }

    /// The list that was translated last.
    #[inline(always)]
    pub fn lits(&self) -> &[Lit]
        ensures { result.now ≡ self.now.lits }
    {
        self.lits.as_slice()
    }

    /// How many variables have a number.
    #[inline(always)]
    pub fn count(&self) -> u32
        ensures count { result ≡ length self.now.vars }
        ensures limit { result ≤ max_var }
        ensures numbering { IsNumbering self.now.vars }
    {
        self.dense.count()
    }

    /// The numbering.
    #[inline(always)]
    pub fn dense(&self) -> &Dense
        ensures { result.now ≡ self.now.vars }
    {
        &self.dense
    }
}

/// Adds the translation of each literal to an empty list, and gives each new variable the next number.
fn number_all(
    dense: &mut Dense,
    out: &mut SmallVec<Lit, 16>,
    lits: &[Lit],
) -> Result<(), AllocError>
    requires { out.old.items ≡ [] }
    ensures vars { OnOk result (dense.new ≡ with_lits dense.old lits.now) }
    ensures lits { OnOk result (out.new.items ≡ numbered_lits dense.old lits.now) }
    ensures numbers { OnOk result (AreNumbers dense.new out.new.items) }
    ensures continues { Continues dense.old dense.new }
{
    out.reserve(lits.len())?;
    for l in lits {
        let lit = dense.number_lit(*l)?;
        out.push_reserved(lit);
    }
    Ok(())
}

/// Adds the translation of each literal to an empty list with room for them, up to the first whose variable has no number, and
/// tells that there is none such.
fn find_all(dense: &Dense, out: &mut SmallVec<Lit, 16>, lits: &[Lit]) -> bool
    requires empty { out.old.items ≡ [] }
    requires room { HasRoomFor out.old (length lits.now) }
    ensures known { result ≡ are_known dense.now lits.now }
    ensures lits { IsTrue result → out.new.items ≡ dense_lits dense.now lits.now }
    ensures front { out.new.items ≡ dense_lits dense.now (known_front dense.now lits.now) }
    ensures numbers { IsTrue result → AreNumbers dense.now out.new.items }
{
    for l in lits {
        match dense.find_lit(*l) {
            Some(lit) => out.push_reserved(lit),
            None => return false,
        }
    }
    true
}

/// Adds the translation of each literal whose variable has a number to an empty list, and tells whether two of the others are
/// opposite.
fn split_known(dense: &Dense, out: &mut SmallVec<Lit, 16>, lits: &[Lit]) -> Result<bool, AllocError>
    requires { out.old.items ≡ [] }
    ensures lits { OnOk result (out.new.items ≡ dense_lits dense.now (filter (is_known dense.now) lits.now)) }
    ensures numbers { OnOk result (AreNumbers dense.now out.new.items) }
    ensures clash { IfOk result (λ clash. clash ≡ is_tautology (filter (λ l. not (is_known dense.now l)) lits.now)) }
    ensures short { length lits.now ≤ 16 → IsOk result }
{
    let count = lits.len();
    let alloc = *out.allocator();
    let mut others: SmallVec<Lit, 16> = SmallVec::new(alloc);
    let _ = (out.capacity(), others.capacity());
    out.reserve(count)?;
    others.reserve(count)?;
    find_each(dense, out, &mut others, lits);
    let others = LitSet::of(alloc, others.as_slice())?;
    Ok(others.tautology())
}

/// Adds the translation of each literal whose variable has a number to one empty list, and the others to another. Both have room
/// for all.
fn find_each(
    dense: &Dense,
    out: &mut SmallVec<Lit, 16>,
    others: &mut SmallVec<Lit, 16>,
    lits: &[Lit],
)
    requires empty { out.old.items ≡ [] }
    requires no_others { others.old.items ≡ [] }
    requires room { HasRoomFor out.old (length lits.now) }
    requires others_room { HasRoomFor others.old (length lits.now) }
    ensures lits { out.new.items ≡ dense_lits dense.now (filter (is_known dense.now) lits.now) }
    ensures numbers { AreNumbers dense.now out.new.items }
    ensures others { others.new.items ≡ filter (λ l. not (is_known dense.now l)) lits.now }
{
    for l in lits {
        match dense.find_lit(*l) {
            Some(number) => out.push_reserved(number),
            None => others.push_reserved(*l),
        }
    }
}
