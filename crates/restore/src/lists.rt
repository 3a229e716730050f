// Clauses with their ids, eliminated variables with their clauses, and lists of both.
ghost use Rattle.std.specs.Prelude.{◌≡◌, ◌++◌, ◌∷◌, [], length, OnOk, OnErr};

use lits::Lits;
use session_rules::Id;
use std::alloc::{AllocError, Global};
use std::marker::Model;

/// A clause that was taken out, with its id.
#[derive(Drop)]
pub struct Kept {
    pub id: Id,
    pub lits: Lits,
}

/// A list of clauses with their ids.
#[derive(Drop)]
pub struct KeptList {
    items: Vec<Kept>,
}

impl Model for KeptList {
    ghost use Rattle.std.specs.Prelude.{List};
    ghost use Rattle.restore.specs.declared.lists.Kept.{Kept};

    ghost Value = { List Kept };

    ghost view = { λ a. a.items.items };
}

impl KeptList {
    /// The empty list. It takes no memory.
    pub fn new(alloc: Global) -> KeptList
        ensures { result ≡ [] }
    {
        KeptList {
            items: Vec::new(alloc),
        }
    }

    /// The list of a vector's clauses. It takes no memory.
    pub fn from_vec(items: Vec<Kept>) -> KeptList
        ensures { result ≡ items.items }
    {
        KeptList { items }
    }

    /// The vector of the list's clauses. It takes no memory.
    pub fn into_vec(self) -> Vec<Kept>
        ensures { result.items ≡ self }
    {
        self.items
    }

    /// Adds a clause at the end. Where memory is wanting the list stays, and the clause is dropped.
    pub fn push(&mut self, x: Kept) -> Result<(), AllocError>
        ensures ok { OnOk result (self.new ≡ self.old ++ x ∷ []) }
        ensures err { OnErr result (self.new ≡ self.old) }
    {
        match self.items.push(x) {
            Ok(()) => Ok(()),
            Err(_) => Err(AllocError),
        }
    }

    /// The clauses.
    pub fn as_slice(&self) -> &[Kept]
        ensures { result.now ≡ self.now }
    {
        &self.items
    }

    /// How many clauses there are.
    pub fn len(&self) -> usize
        ensures { result ≡ length self.now }
    {
        self.items.len()
    }
}

/// An eliminated variable, with the clauses that held it.
#[derive(Drop)]
pub struct Elim {
    pub var: u32,
    pub clauses: KeptList,
}

/// A list of eliminated variables with their clauses.
#[derive(Drop)]
pub struct ElimList {
    items: Vec<Elim>,
}

impl Model for ElimList {
    ghost use Rattle.std.specs.Prelude.{List};
    ghost use Rattle.restore.specs.declared.lists.Elim.{Elim};

    ghost Value = { List Elim };

    ghost view = { λ a. a.items.items };
}

impl ElimList {
    /// The empty list. It takes no memory.
    pub fn new(alloc: Global) -> ElimList
        ensures { result ≡ [] }
    {
        ElimList {
            items: Vec::new(alloc),
        }
    }

    /// The list of a vector's entries. It takes no memory.
    pub fn from_vec(items: Vec<Elim>) -> ElimList
        ensures { result ≡ items.items }
    {
        ElimList { items }
    }

    /// The vector of the list's entries. It takes no memory.
    pub fn into_vec(self) -> Vec<Elim>
        ensures { result.items ≡ self }
    {
        self.items
    }

    /// Adds an entry at the end. Where memory is wanting the list stays, and the entry is dropped.
    pub fn push(&mut self, x: Elim) -> Result<(), AllocError>
        ensures ok { OnOk result (self.new ≡ self.old ++ x ∷ []) }
        ensures err { OnErr result (self.new ≡ self.old) }
    {
        match self.items.push(x) {
            Ok(()) => Ok(()),
            Err(_) => Err(AllocError),
        }
    }

    /// The entries.
    pub fn as_slice(&self) -> &[Elim]
        ensures { result.now ≡ self.now }
    {
        &self.items
    }

    /// How many entries there are.
    pub fn len(&self) -> usize
        ensures { result ≡ length self.now }
    {
        self.items.len()
    }
}
