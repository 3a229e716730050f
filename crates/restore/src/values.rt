// The values of variables, as a table.
ghost use Rattle.std.specs.Prelude.{◌≡◌, ◌++◌, ◌-◌, ◌≤◌, [], false, length, replicate, slice_set, OnOk, OnErr, IsOk};
ghost use Rattle.restore.specs.Values.{value, reserved, IsReserved};

use lits::MAX_VAR;
use std::alloc::{AllocError, Global};
use std::marker::Model;

/// A truth value for each reserved variable. Contracts see the list of the values of the variables from 1 on, so its
/// length is the greatest reserved variable.
#[derive(Drop)]
pub struct Values {
    items: Vec<bool>,
}

impl Model for Values {
    ghost use Rattle.std.specs.Prelude.{List, Bool};

    ghost Value = { List Bool };

    ghost view = { λ a. a.items.items };
}

impl Values {
    /// Values of no variable. It takes no memory.
    pub fn new(alloc: Global) -> Values
        ensures { result ≡ [] }
    {
        Values {
            items: Vec::new(alloc),
        }
    }

    /// Reserves the variables up to this one. New ones are false. Where they are reserved already it takes no memory.
    ///
    /// `AllocError` means want of memory, and then nothing is changed.
    pub fn reserve(&mut self, vars: u32) -> Result<(), AllocError>
        requires { vars ≤ MAX_VAR }
        ensures ok { OnOk result (self.new ≡ self.old ++ replicate (vars - reserved self.old) false) }
        ensures err { OnErr result (self.new ≡ self.old) }
        ensures already { vars ≤ reserved self.old → IsOk result }
    {
        if vars as usize > self.items.len() {
            self.items.resize(vars as usize, false)?;
        }
        Ok(())
    }

    /// The value of a variable.
    pub fn get(&self, var: u32) -> bool
        requires { IsReserved self.now var }
        ensures { result ≡ value self.now var }
    {
        self.items[(var - 1) as usize]
    }

    /// Gives a variable another value. It takes no memory.
    pub fn set(&mut self, var: u32, to: bool)
        requires { IsReserved self.old var }
        ensures { self.new ≡ slice_set self.old (var - 1) to }
    {
        self.items[(var - 1) as usize] = to;
    }
}
