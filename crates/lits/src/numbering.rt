// Numbers for variables, from 1 on, in the order in which the variables come. The number of an ordinary variable stands in a
// table with a place for each variable below its length, so it is found by one bounds test and one read. A variable that is
// too large for the count of variables when it comes stands in a map, so that a few large variables take no long table. It
// gets its place in the table when it comes again and the count has grown enough. The table is asked first.

ghost use Rattle.std.specs.Prelude.{◌≡◌, ℕ, ◌+◌, ◌-◌, ◌*◌, ◌%◌, ◌<◌, ◌≤◌, max, nat_eq, List, [], length, slice_index, OnOk, OnErr, IfOk, IfErr, IfSome, IsTrue, IsOk, false, Some, None, if◌then◌else◌};
ghost use Rattle.lits.specs.Literal.{max_var, var, IsLiteral};
ghost use Rattle.lits.specs.Clause.{has};
ghost use Rattle.lits.specs.Numbering.{IsVariable, IsNumbering, number_of, find_number, var_of, with_var, is_known, dense_lit, find_dense_lit, file_lit};
ghost use Rattle.lits.specs.Dense.{if_number, far_number, noted};

use crate::Lit;
use std::alloc::{AllocError, Global};
use std::collections::HashMap;
use std::marker::Model;

/// Numbers for variables, in the order in which they come: the first variable has number 1, the next one that is new has
/// number 2, and so on. Contracts see the list of the variables in that order, each once, so the number of a variable is its
/// place in the list counted from 1. Whatever variables come, a call takes a constant time on average, and the memory is at
/// most a constant times the count of variables: the table has at most 8 places of 4 bytes a variable and 4,097 more, and the
/// map at most an entry a variable.
#[derive(Drop)]
pub struct Dense {
    table: Table,
    // for each number its variable, at one less
    vars: Vec<u32>,
}

impl Model for Dense {
    ghost use Rattle.std.specs.Prelude.{ℕ, List};

    ghost Value = { List ℕ };

    ghost use Rattle.lits.specs.Dense.{IsDense};

    ghost view = { λ d. d.vars.items };

    ghost invariant = { λ d. IsDense d.table.near.items d.table.far.entries d.vars.items };
}

impl Dense {
    /// No variable has a number.
    pub fn new(alloc: Global) -> Dense
        ensures { result ≡ [] }
    {
        Dense {
            table: Table::new(alloc),
            vars: Vec::new(alloc),
        }
    }

    /// How many variables have a number, which is the greatest number.
    #[inline(always)]
    #[tactic(auto, using(crate::proofs::Places::numbering_limit))]
    pub fn count(&self) -> u32
        ensures count { result ≡ length self.now }
        ensures limit { result ≤ max_var }
        ensures numbering { IsNumbering self.now }
    {
        self.vars.len() as u32
    }

    /// The number of a variable from 1 to `MAX_VAR`. A new variable gets the next number, one more than the count. An error
    /// comes only for a new variable, when memory runs out, and leaves the numbers as they were.
    #[inline(always)]
    pub fn number(&mut self, var: u32) -> Result<u32, AllocError>
        requires { IsVariable var }
        ensures number { IfOk result (λ n. n ≡ number_of self.old var) }
        ensures ok { OnOk result (self.new ≡ with_var self.old var) }
        ensures limit { IfOk result IsVariable }
        ensures within { IfOk result (λ n. n ≤ length self.new) }
        ensures err { OnErr result (self.new ≡ self.old) }
        ensures known { IsTrue (has self.old var) → IsOk result }
    {
        let number = self.table.near_at(var);
        if number != 0 {
            return Ok(number);
        }
        self.number_rare(var)
    }

    /// The number of a variable, for those that the near part doesn't have.
    #[inline(never)]
    #[tactic(auto, using(crate::proofs::Places::numbering_limit))]
    fn number_rare(&mut self, var: u32) -> Result<u32, AllocError>
        requires { IsVariable var }
        ensures number { IfOk result (λ n. n ≡ number_of self.old var) }
        ensures ok { OnOk result (self.new ≡ with_var self.old var) }
        ensures limit { IfOk result IsVariable }
        ensures within { IfOk result (λ n. n ≤ length self.new) }
        ensures err { OnErr result (self.new ≡ self.old) }
        ensures known { IsTrue (has self.old var) → IsOk result }
    {
        match self.table.get(var) {
            Some(number) => {
                let limit = near_limit(self.vars.len());
                self.table.settle(var, number, limit);
                Ok(number)
            }
            None => self.enter(var),
        }
    }

    /// Gives a variable that has no number the next one.
    #[tactic(auto, using(crate::proofs::Places::numbering_limit))]
    fn enter(&mut self, var: u32) -> Result<u32, AllocError>
        requires variable { IsVariable var }
        requires missing { has self.old var ≡ false }
        ensures number { IfOk result (λ n. n ≡ number_of self.old var) }
        ensures ok { OnOk result (self.new ≡ with_var self.old var) }
        ensures limit { IfOk result IsVariable }
        ensures within { IfOk result (λ n. n ≤ length self.new) }
        ensures err { OnErr result (self.new ≡ self.old) }
    {
        let count = self.vars.len();
        let number = count as u32 + 1;
        if self.vars.reserve(1).is_err() {
            return Err(AllocError);
        }
        if self.table.put(var, number, near_limit(count)).is_err() {
            return Err(AllocError);
        }
        self.vars.push_reserved(var);
        Ok(number)
    }

    /// The number of a variable, None exactly where it has none.
    #[inline(always)]
    pub fn find(&self, var: u32) -> Option<u32>
        ensures number { result ≡ find_number self.now var }
        ensures limit { IfSome result IsVariable }
        ensures within { IfSome result (λ n. n ≤ length self.now) }
    {
        self.table.get(var)
    }

    /// The variable of a number from 1 to the count.
    #[inline(always)]
    pub fn var(&self, number: u32) -> u32
        requires { (0 < number) × (number ≤ length self.now) }
        ensures variable { result ≡ var_of self.now number }
        ensures limit { IsVariable result }
    {
        self.vars[number as usize - 1]
    }

    /// The literal with its variable's number in place of the variable. A new variable gets the next number, with the errors
    /// of `number`.
    #[inline(always)]
    pub fn number_lit(&mut self, lit: Lit) -> Result<Lit, AllocError>
        ensures literal { IfOk result (λ l. l ≡ dense_lit self.old lit) }
        ensures ok { OnOk result (self.new ≡ with_var self.old (var lit)) }
        ensures limit { IfOk result IsLiteral }
        ensures within { IfOk result (λ l. var l ≤ length self.new) }
        ensures err { OnErr result (self.new ≡ self.old) }
        ensures known { IsTrue (is_known self.old lit) → IsOk result }
    {
        match self.number(lit.var()) {
            Ok(number) => Ok(with_sign_of(number, lit)),
            Err(e) => Err(e),
        }
    }

    /// The literal with its variable's number in place of the variable, None exactly where that has none.
    #[inline(always)]
    pub fn find_lit(&self, lit: Lit) -> Option<Lit>
        ensures literal { result ≡ find_dense_lit self.now lit }
        ensures within { IfSome result (λ l. var l ≤ length self.now) }
    {
        match self.find(lit.var()) {
            Some(number) => Some(with_sign_of(number, lit)),
            None => None,
        }
    }

    /// The literal with the variable of a number in place of the number: it undoes `number_lit` and `find_lit`.
    #[inline(always)]
    pub fn file_lit(&self, lit: Lit) -> Lit
        requires { var lit ≤ length self.now }
        ensures literal { result ≡ file_lit self.now lit }
        ensures limit { IsLiteral result }
    {
        with_sign_of(self.var(lit.var()), lit)
    }
}

/// The literal of a variable that has the sign of another literal.
#[inline(always)]
fn with_sign_of(var: u32, lit: Lit) -> Lit
    requires { IsVariable var }
    ensures literal { result ≡ 2 * (var - 1) + lit % 2 }
    ensures limit { IsLiteral result }
{
    Lit::from_code(2 * (var - 1) + lit.code() % 2)
}

/// The greatest variable for which the table makes a place, by the count of variables: its size is bounded by theirs.
fn near_limit(count: usize) -> u64
    requires { count ≤ max_var }
    ensures { result ≡ 8 * count + 4096 }
{
    8 * count as u64 + 4096
}

/// The numbers by variable, each in one of two parts.
#[derive(Drop)]
struct Table {
    // for each variable below its length the number, 0 where there is none or it is in the other part
    near: Vec<u32>,
    far: HashMap<u32, u32>,
}

impl Table {
    /// A table with no number.
    fn new(alloc: Global) -> Table
        ensures near { result.near.items ≡ [] }
        ensures far { result.far.entries ≡ [] }
    {
        Table {
            near: Vec::new(alloc),
            far: HashMap::new(alloc),
        }
    }

    /// The number that the near part has for a variable, 0 where it has none.
    #[inline(always)]
    fn near_at(&self, var: u32) -> u32
        ensures { result ≡ slice_index self.now.near.items var }
    {
        let at = var as usize;
        if at < self.near.len() {
            self.near[at]
        } else {
            0
        }
    }

    /// The number that the far part has for a variable.
    fn far_at(&self, var: u32) -> Option<u32>
        ensures { result ≡ far_number self.now.far.entries var }
    {
        if self.far.is_empty() {
            return None;
        }
        match self.far.get(&var) {
            Some(number) => Some(*number),
            None => None,
        }
    }

    /// The number of a variable.
    #[inline(always)]
    fn get(&self, var: u32) -> Option<u32>
        ensures { result ≡ noted self.now.near.items self.now.far.entries var }
    {
        let number = self.near_at(var);
        if number != 0 {
            return Some(number);
        }
        self.far_at(var)
    }

    /// Notes the number of a variable that has none: in the near part, which grows to have a place for a variable up to
    /// `limit`, or in the far part. After an error each number is as it was.
    fn put(&mut self, var: u32, number: u32, limit: u64) -> Result<(), AllocError>
        requires number { 0 < number }
        requires missing { far_number self.old.far.entries var ≡ None }
        ensures ok { OnOk result ((q : ℕ) → noted self.new.near.items self.new.far.entries q ≡ (if nat_eq var q then Some number else noted self.old.near.items self.old.far.entries q)) }
        ensures err { OnErr result ((q : ℕ) → noted self.new.near.items self.new.far.entries q ≡ noted self.old.near.items self.old.far.entries q) }
        ensures near_size { length self.new.near.items ≤ max (length self.old.near.items) (limit + 1) }
        ensures far_size { OnOk result (length self.new.far.entries ≤ length self.old.far.entries + 1) }
        ensures far_kept { OnErr result (length self.new.far.entries ≡ length self.old.far.entries) }
    {
        if var as u64 <= limit && widen(&mut self.near, var).is_err() {
            return Err(AllocError);
        }
        if write(&mut self.near, var, number) {
            return Ok(());
        }
        put_far(&mut self.far, var, number)
    }

    /// Gives the number of a variable a place in the near part too, if that has one or can grow to have one up to `limit`.
    fn settle(&mut self, var: u32, number: u32, limit: u64)
        requires number { 0 < number }
        requires known { noted self.old.near.items self.old.far.entries var ≡ Some number }
        ensures same { (q : ℕ) → noted self.new.near.items self.new.far.entries q ≡ noted self.old.near.items self.old.far.entries q }
        ensures near_size { length self.new.near.items ≤ max (length self.old.near.items) (limit + 1) }
        ensures far_size { self.new.far.entries ≡ self.old.far.entries }
    {
        if var as u64 <= limit && widen(&mut self.near, var).is_err() {
            return;
        }
        let _ = write(&mut self.near, var, number);
    }
}

/// Gives the near part a place for a variable.
fn widen(near: &mut Vec<u32>, var: u32) -> Result<(), AllocError>
    ensures same { (q : ℕ) → slice_index near.new.items q ≡ slice_index near.old.items q }
    ensures size { length near.new.items ≤ max (length near.old.items) (var + 1) }
    ensures err { OnErr result (near.new.items ≡ near.old.items) }
{
    let end = var as usize + 1;
    if near.len() < end {
        near.resize(end, 0)?;
    }
    Ok(())
}

/// Writes the number of a variable into the near part, and tells whether there is a place for it.
fn write(near: &mut Vec<u32>, var: u32, number: u32) -> bool
    ensures written { IsTrue result → (q : ℕ) → slice_index near.new.items q ≡ (if nat_eq var q then number else slice_index near.old.items q) }
    ensures size { length near.new.items ≡ length near.old.items }
    ensures past { result ≡ false → slice_index near.old.items var ≡ 0 }
    ensures same { result ≡ false → near.new.items ≡ near.old.items }
{
    let at = var as usize;
    if at < near.len() {
        near[at] = number;
        return true;
    }
    false
}

/// Enters the number of a variable into the far part.
fn put_far(far: &mut HashMap<u32, u32>, var: u32, number: u32) -> Result<(), AllocError>
    ensures ok { OnOk result ((q : ℕ) → far_number far.new.entries q ≡ (if nat_eq var q then Some number else far_number far.old.entries q)) }
    ensures size { OnOk result (length far.new.entries ≤ length far.old.entries + 1) }
    ensures err { OnErr result (far.new.entries ≡ far.old.entries) }
{
    match far.insert(var, number) {
        Ok(_) => Ok(()),
        Err(_) => Err(AllocError),
    }
}
