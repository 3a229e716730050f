// Where a solver's layers tell the steps that they take, the moment they take them.
ghost use Rattle.std.specs.Prelude.{◌≡◌, ℕ, ◌+◌, ◌-◌, ◌^◌, ◌<◌, ◌≤◌, min, OnOk, IfErr};
ghost use Rattle.session_rules.specs.declared.Form.{Form};
ghost use Rattle.session_rules.specs.declared.Told.{Told};
ghost use Rattle.session_rules.specs.declared.LogFault.{LogFault};
ghost use Rattle.session_rules.specs.Telling.{Names, told_length};

use crate::{Id, LogFault};
use lits::Lit;

/// Takes the steps of a solver, one a call. After a fault the log is given up, unless the fault is `Exhausted`.
pub trait Log {
    /// How often it has failed.
    ghost faults: { Self → ℕ };

    /// The form in which its lines are measured.
    ghost form: { Self → Form };

    /// The variables of the numbering over which it is told literals, in the order of their numbers: its lines print them.
    ghost names: { Self → Names };

    /// How many bytes its lines may still have.
    ghost room: { Self → ℕ };

    /// A call told this step to the first log, answered Ok and left the second.
    ghost takes: { Self → Told → Self → Type 0 };

    /// A call told this step to the first log, answered this fault and left the second.
    ghost refuses: { Self → Told → LogFault → Self → Type 0 };

    /// Tells that a clause which follows was added.
    fn lemma(&mut self, id: Id, lits: &[Lit], hints: &[Id]) -> Result<(), LogFault>
        ensures ok { OnOk result (takes self.old (Told.Lemma id lits.now hints.now) self.new) }
        ensures err { IfErr result (λ fault. refuses self.old (Told.Lemma id lits.now hints.now) fault self.new) };

    /// Tells that an active clause was deleted.
    fn delete(&mut self, id: Id, lits: &[Lit]) -> Result<(), LogFault>
        ensures ok { OnOk result (takes self.old (Told.Delete id lits.now) self.new) }
        ensures err { IfErr result (λ fault. refuses self.old (Told.Delete id lits.now) fault self.new) };

    /// Tells that an active clause was weakened.
    fn weaken(&mut self, id: Id, lits: &[Lit]) -> Result<(), LogFault>
        ensures ok { OnOk result (takes self.old (Told.Weaken id lits.now) self.new) }
        ensures err { IfErr result (λ fault. refuses self.old (Told.Weaken id lits.now) fault self.new) };

    /// Tells that a weakened clause was restored.
    fn restore(&mut self, id: Id, lits: &[Lit]) -> Result<(), LogFault>
        ensures ok { OnOk result (takes self.old (Told.Restore id lits.now) self.new) }
        ensures err { IfErr result (λ fault. refuses self.old (Told.Restore id lits.now) fault self.new) };

    /// A step that is taken lowers the room by its line, and nothing else but the count changes.
    ghost taken_form: { (before : Self) (told : Told) (after : Self) → takes before told after → form after ≡ form before };

    ghost taken_names: { (before : Self) (told : Told) (after : Self) → takes before told after → names after ≡ names before };

    ghost taken_faults: { (before : Self) (told : Told) (after : Self) → takes before told after → faults before ≤ faults after };

    ghost taken_room: { (before : Self) (told : Told) (after : Self) → takes before told after
        → room before ≡ room after + told_length (form before) (names before) told };

    /// A refusal leaves form and names, and no count falls.
    ghost refused_form: { (before : Self) (told : Told) (fault : LogFault) (after : Self) → refuses before told fault after → form after ≡ form before };

    ghost refused_names: { (before : Self) (told : Told) (fault : LogFault) (after : Self) → refuses before told fault after → names after ≡ names before };

    ghost refused_faults: { (before : Self) (told : Told) (fault : LogFault) (after : Self) → refuses before told fault after → faults before ≤ faults after };

    /// Write comes only where the count rose, and not where the room is too small.
    ghost refused_write: { (before : Self) (told : Told) (after : Self) → refuses before told LogFault.Write after
        → (min (faults before + 1) (2 ^ 64 - 1) ≤ faults after) × (told_length (form before) (names before) told ≤ room before) × (room after ≤ room before) };

    /// Exhausted comes only where the line is longer than the room, and leaves the log as it was.
    ghost refused_exhausted: { (before : Self) (told : Told) (after : Self) → refuses before told LogFault.Exhausted after
        → (room before < told_length (form before) (names before) told) × (after ≡ before) };
}
