// The parts of lines: the letter, lists of literals and of ids, the line's own id, and the status.
ghost use Rattle.std.specs.Prelude.{IsErrOf};
ghost use Rattle.session_rules.specs.declared.LineFault.{LineFault};
ghost use Rattle.session_rules.specs.Reading.{literal_list, id_list, own_id, status_word};
ghost use Rattle.line_reading.specs.Readers.{reader, PartRead};

use crate::kinds::{IdWords, LiteralWords, OwnIdWords, StatusWords};
use crate::runs::push_run;
use crate::spare::{Spare, empty_ids, empty_literals};
use crate::words::next_word;
use lits::Lits;
use outside::Source;
use session_rules::{Id, Ids, LineFault, StatusWord};
use slice_tokens::Window;
use std::alloc::AllocError;

/// Literals up to the 0 that ends their list.
pub fn read_literals<S: Source>(
    spare: &mut Spare,
    window: &mut Window,
    src: &mut S,
) -> Result<Lits, LineFault>
    ensures part { let at = reader S.left S.faults in
        PartRead literal_list (at window.old src.old) (at window.new src.new) result }
{
    let mut lits = empty_literals(spare);
    match push_run(window.coming(), &mut lits) {
        Ok((count, true)) => {
            window.pass_over(count);
            return Ok(lits);
        }
        Ok((count, false)) => window.pass_over(count),
        Err(AllocError) => return Err(LineFault::Memory),
    }
    'literals: loop {
        match next_word::<S, LiteralWords>(window, src) {
            Ok(Some(l)) => {
                if lits.push(l).is_err() {
                    return Err(LineFault::Memory);
                }
            }
            Ok(None) => return Ok(lits),
            Err(fault) => return Err(fault),
        }
    }
}

/// Ids up to the 0 that ends their list.
pub fn read_ids<S: Source>(
    spare: &mut Spare,
    window: &mut Window,
    src: &mut S,
) -> Result<Ids, LineFault>
    ensures part { let at = reader S.left S.faults in
        PartRead id_list (at window.old src.old) (at window.new src.new) result }
{
    let mut ids = empty_ids(spare);
    'ids: loop {
        match next_word::<S, IdWords>(window, src) {
            Ok(Some(id)) => {
                if ids.push(id).is_err() {
                    return Err(LineFault::Memory);
                }
            }
            Ok(None) => return Ok(ids),
            Err(fault) => return Err(fault),
        }
    }
}

/// The line's own id, which isn't 0.
#[inline(always)]
pub fn read_id<S: Source>(window: &mut Window, src: &mut S) -> Result<Id, LineFault>
    ensures part { let at = reader S.left S.faults in
        PartRead own_id (at window.old src.old) (at window.new src.new) result }
    ensures memory { IsErrOf result LineFault.Memory → ⊥ }
{
    next_word::<S, OwnIdWords>(window, src)
}

/// A status.
pub fn read_status<S: Source>(window: &mut Window, src: &mut S) -> Result<StatusWord, LineFault>
    ensures part { let at = reader S.left S.faults in
        PartRead status_word (at window.old src.old) (at window.new src.new) result }
    ensures memory { IsErrOf result LineFault.Memory → ⊥ }
{
    next_word::<S, StatusWords>(window, src)
}
