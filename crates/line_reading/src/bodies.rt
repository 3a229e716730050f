// The bodies of lines: what stands in a line behind its letter, read to the line's end.
ghost use Rattle.std.specs.Prelude.{IsErrOf};
ghost use Rattle.session_rules.specs.declared.LineFault.{LineFault};
ghost use Rattle.line_reading.specs.Readers.{reader, BodyRead};
ghost use Rattle.line_reading.specs.Whole.{literals_body, ids_body, status_body, id_literals_body, id_literals_ids_body, literals_ids_body};

use crate::lists::{read_id, read_ids, read_literals, read_status};
use crate::spare::Spare;
use crate::words::end_line;
use lits::Lits;
use outside::Source;
use session_rules::{Id, Ids, LineFault, StatusWord};
use slice_tokens::Window;

/// Literals and a 0.
pub fn literals_body<S: Source>(
    spare: &mut Spare,
    window: &mut Window,
    src: &mut S,
) -> Result<Lits, LineFault>
    ensures body { let at = reader S.left S.faults in
        BodyRead literals_body (at window.old src.old) (at window.new src.new) result }
{
    let lits = read_literals(spare, window, src)?;
    end_line(window, src)?;
    Ok(lits)
}

/// Ids and a 0.
pub fn ids_body<S: Source>(
    spare: &mut Spare,
    window: &mut Window,
    src: &mut S,
) -> Result<Ids, LineFault>
    ensures body { let at = reader S.left S.faults in
        BodyRead ids_body (at window.old src.old) (at window.new src.new) result }
{
    let ids = read_ids(spare, window, src)?;
    end_line(window, src)?;
    Ok(ids)
}

/// A status.
pub fn status_body<S: Source>(window: &mut Window, src: &mut S) -> Result<StatusWord, LineFault>
    ensures body { let at = reader S.left S.faults in
        BodyRead status_body (at window.old src.old) (at window.new src.new) result }
    ensures memory { IsErrOf result LineFault.Memory → ⊥ }
{
    let status = read_status(window, src)?;
    end_line(window, src)?;
    Ok(status)
}

/// The line's own id, and literals and a 0.
pub fn id_literals_body<S: Source>(
    spare: &mut Spare,
    window: &mut Window,
    src: &mut S,
) -> Result<(Id, Lits), LineFault>
    ensures body { let at = reader S.left S.faults in
        BodyRead id_literals_body (at window.old src.old) (at window.new src.new) result }
{
    let id = read_id(window, src)?;
    let lits = literals_body(spare, window, src)?;
    Ok((id, lits))
}

/// The line's own id, literals and a 0, and ids and a 0.
pub fn id_literals_ids_body<S: Source>(
    spare: &mut Spare,
    window: &mut Window,
    src: &mut S,
) -> Result<(Id, Lits, Ids), LineFault>
    ensures body { let at = reader S.left S.faults in
        BodyRead id_literals_ids_body (at window.old src.old) (at window.new src.new) result }
{
    let id = read_id(window, src)?;
    let (lits, ids) = literals_ids_body(spare, window, src)?;
    Ok((id, lits, ids))
}

/// Literals and a 0, and ids and a 0.
pub fn literals_ids_body<S: Source>(
    spare: &mut Spare,
    window: &mut Window,
    src: &mut S,
) -> Result<(Lits, Ids), LineFault>
    ensures body { let at = reader S.left S.faults in
        BodyRead literals_ids_body (at window.old src.old) (at window.new src.new) result }
{
    let lits = read_literals(spare, window, src)?;
    let ids = ids_body(spare, window, src)?;
    Ok((lits, ids))
}
