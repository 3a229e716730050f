//! Literals of propositional variables, lists and sets of them, and the words of a line that stand for them.
//!
//! A literal is a variable from 1 to `MAX_VAR`, or its negation. It is one 32-bit word, its code: twice the variables
//! before its own, and one more for a negation. So the two literals of a variable stand side by side in the order of
//! codes, and negation changes one bit. Contracts see a literal as its code, a list as the list of codes, and a set as
//! the list of its codes in ascending order.
//!
//! `Dense` numbers variables from 1 on in the order in which they come, and translates literals into those of the numbers.
#![tactic(auto)]

ghost use Rattle.std.specs.Prelude.{◌≡◌, ◌≤◌, ◌++◌, ◌∷◌, [], length, SomeIff, OnOk, OnErr, ◌↔◌, IsTrue};
ghost use Rattle.lits.specs.Literal.{max_var, var, positive, neg, number, of_number, IsLiteral, IsNumber};

mod laws;
mod numbering;
mod reading;
mod set;
#[cfg(test)]
mod tests;

pub use crate::laws::{
    literals_that_came_are_known, negation_is_an_involution, numbers_are_a_bijection,
    numbers_are_literals, numbers_stay, same_set_is_an_equivalence, sets_are_their_members,
    sorted_sets_are_unique, tests_depend_on_sets, translated_lists_keep_their_sets,
    translated_literals_are_literals, words_are_ids, words_are_literals,
};
pub use crate::numbering::Dense;
pub use crate::reading::{front_id, front_literal, front_zero, id_word, literal_word};
pub use crate::set::LitSet;
use std::alloc::{AllocError, Global};
use std::marker::Model;

/// The greatest variable, in memory and in files.
pub const MAX_VAR: u32 = 2_147_483_647;

/// A variable or its negation, ordered by its code. The default is variable 1, which fills unused places of short sets.
#[derive(Clone, Copy, PartialEq, Eq, PartialOrd, Ord, Hash, Debug, Default)]
pub struct Lit {
    code: u32,
}

impl Model for Lit {
    ghost use Rattle.std.specs.Prelude.{ℕ};
    ghost use Rattle.lits.specs.Literal.{IsLiteral};

    ghost Value = { ℕ };

    ghost view = { λ l. l.code };

    ghost invariant = { λ l. IsLiteral l.code };

    ghost inverse = { λ n. record { code = n } };
}

impl Lit {
    /// The literal that is written as this number: the variable, or its negative for the negation. There is none for 0
    /// and for a number whose absolute value is above `MAX_VAR`.
    pub fn new(n: i64) -> Option<Lit>
        ensures { SomeIff result (IsNumber n) (of_number n) }
    {
        let size = n.unsigned_abs();
        if size == 0 || size > MAX_VAR as u64 {
            return None;
        }
        let first = 2 * (size as u32).saturating_sub(1);
        Some(Lit {
            code: if n < 0 { first + 1 } else { first },
        })
    }

    /// The number that is written for it.
    pub fn number(self) -> i64
        ensures { result ≡ number self }
    {
        let var = self.var() as i64;
        if self.positive() { var } else { -var }
    }

    /// The literal of a code.
    #[inline(always)]
    pub fn from_code(code: u32) -> Lit
        requires { IsLiteral code }
        ensures { result ≡ code }
    {
        Lit { code }
    }

    /// Its negation.
    pub fn neg(self) -> Lit
        ensures negation { result ≡ neg self }
        ensures limit { IsLiteral result }
    {
        Lit {
            code: self.code ^ 1,
        }
    }

    /// Its variable, from 1 on.
    pub fn var(self) -> u32
        ensures variable { result ≡ var self }
        ensures limit { result ≤ max_var }
    {
        self.code / 2 + 1
    }

    /// Whether it is the variable itself.
    pub fn positive(self) -> bool
        ensures { result ≡ positive self }
    {
        self.code % 2 == 0
    }

    /// Its code: twice the variables before its own, and one more for a negation.
    pub fn code(self) -> u32
        ensures code { result ≡ self }
        ensures limit { IsLiteral self }
    {
        self.code
    }
}

/// A word where a literal or the `0` at a list's end is due.
#[derive(Clone, Copy, PartialEq, Eq, Debug)]
pub enum LitWord {
    /// The word `0`.
    Zero,
    /// The word of this literal.
    Value(Lit),
    /// Another word, or one of more than 32 bytes.
    NotNumber,
    /// A number beyond the greatest variable that a file may name.
    OutOfRange,
}

/// A word where an id or the `0` at a list's end is due.
#[derive(Clone, Copy, PartialEq, Eq, Debug)]
pub enum IdWord {
    /// The word `0`.
    Zero,
    /// The word of this id, from 1 to 2^63 - 1.
    Value(u64),
    /// Another word, or one of more than 32 bytes.
    NotNumber,
    /// A number beyond the greatest id.
    OutOfRange,
}

/// A list of literals, in its order and with its repeats.
#[derive(Debug, Drop)]
pub struct Lits {
    items: Vec<Lit>,
}

impl Model for Lits {
    ghost use Rattle.std.specs.Prelude.{ℕ, List};

    ghost Value = { List ℕ };

    ghost view = { λ a. a.items.items };
}

impl Lits {
    /// The empty list.
    pub fn new(alloc: Global) -> Lits
        ensures { result ≡ [] }
    {
        Lits {
            items: Vec::new(alloc),
        }
    }

    /// The list of a vector's literals, in the vector's memory.
    pub fn from_vec(items: Vec<Lit>) -> Lits
        ensures { result ≡ items.items }
    {
        Lits { items }
    }

    /// The vector of the list's literals, in the list's memory.
    pub fn into_vec(self) -> Vec<Lit>
        ensures { result.items ≡ self }
    {
        let Lits { items } = self;
        items
    }

    /// Adds a literal at the end. After an error the list is as it was.
    pub fn push(&mut self, x: Lit) -> Result<(), AllocError>
        ensures ok { OnOk result (self.new ≡ self.old ++ x ∷ []) }
        ensures err { OnErr result (self.new ≡ self.old) }
    {
        self.items.push(x)?;
        Ok(())
    }

    /// The literals.
    pub fn as_slice(&self) -> &[Lit]
        ensures { result.now ≡ self.now }
    {
        &self.items
    }

    /// How many there are, repeats among them.
    pub fn len(&self) -> usize
        ensures { result ≡ length self.now }
    {
        self.items.len()
    }

    /// Whether it is empty.
    pub fn is_empty(&self) -> bool
        ensures { IsTrue result ↔ (length self.now ≡ 0) }
    {
        self.items.is_empty()
    }
}
