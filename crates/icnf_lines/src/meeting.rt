// How the literals of a line are held against those of an event: by one look where they are the same in the same order, and
// else as they come, by marks in a table.

ghost use Rattle.std.specs.Prelude.{◌≡◌, ◌≤◌, ℕ, List, [], length, if◌then◌else◌, All, IsErrOf, Option, Ok, false};
ghost use Rattle.std.specs.Bool.{OnTrue};
ghost use Rattle.std.specs.Option.{option_or};
ghost use Rattle.session_rules.specs.declared.LineFault.{LineFault};
ghost use Rattle.session_rules.specs.History.{first_missing};
ghost use Rattle.session_rules.specs.Reading.{literal_list};
ghost use Rattle.slice_tokens.specs.Place.{ahead, WhereTold};
ghost use Rattle.line_reading.specs.Parts.{ReadsPart, Stays};
ghost use Rattle.line_reading.specs.Readers.{Reader, reader, PartRead};
ghost use Rattle.icnf_lines.specs.Marks.{AreKnown, HasRoom, IsBlank};
ghost use Rattle.icnf_lines.specs.Partners as partners;

use crate::marks::{Mark, clear, first_unmet, mark_assumed, mark_held, meet_literal};
use line_reading::{LiteralWords, end_line, next_word, pass_literals};
use lits::{Dense, Lit};
use outside::Source;
use session_rules::LineFault;
use slice_tokens::Window;

/// The first of a line's literals that an event lacks, the first of the event's that the line lacks, and the first of the
/// line's that isn't assumed.
#[derive(Clone, Copy)]
pub(crate) struct Met {
    pub(crate) stranger: Option<Lit>,
    pub(crate) unmet: Option<Lit>,
    pub(crate) claim: Option<Lit>,
}

/// The first of some literals.
fn first_literal(lits: &[Lit]) -> Option<Lit>
    ensures { result ≡ first_missing lits.now [] }
{
    if lits.is_empty() { None } else { Some(lits[0]) }
}

/// Reads literals and a 0 where they are an event's in the same order and nothing is assumed, as a look tells. Where it answers
/// false nothing is read.
fn pass_same(window: &mut Window, held: &[Lit], assumed: &[Lit]) -> bool
    ensures stays { OnTrue result (Stays window.old window.new) }
    ensures none { OnTrue result (assumed.now ≡ []) }
    ensures yes { OnTrue result ((left : Option (List ℕ)) → WhereTold (ahead window.old left) (ahead window.new left)
        (λ bytes rest. ReadsPart literal_list (Ok held.now) window.old bytes window.new rest)) }
    ensures no { result ≡ false → window.new ≡ window.old }
{
    assumed.is_empty() && pass_literals(window, held)
}

/// Reads the end of a line whose literals are an event's, where nothing is assumed.
fn meet_same<S: Source>(window: &mut Window, src: &mut S, held: &[Lit]) -> Result<Met, LineFault>
    ensures met { let at = reader S.left S.faults in
        (start : Reader) → PartRead literal_list start (at window.old src.old) (Ok held.now)
        → partners.MeetsLiterals held.now [] start (at window.new src.new) result }
    ensures memory { IsErrOf result LineFault.Memory → ⊥ }
{
    match end_line(window, src) {
        Ok(()) => Ok(Met {
            stranger: None,
            unmet: None,
            claim: first_literal(held),
        }),
        Err(fault) => Err(fault),
    }
}

/// Holds the body of a line, literals and a 0, against an event's literals and those that are assumed. The table has no mark
/// then, also after an error. Where nothing is assumed a look tells whether the line has the same literals in the same order,
/// as nearly every line has, and nothing is marked.
pub(crate) fn meet<S: Source>(
    window: &mut Window,
    src: &mut S,
    held: &[Lit],
    assumed: &[Lit],
    dense: &Dense,
    table: &mut [Mark],
) -> Result<Met, LineFault>
    requires held { AreKnown dense.now held.now }
    requires assumed { AreKnown dense.now assumed.now }
    requires room { HasRoom (length table.old) dense.now }
    requires blank { IsBlank table.old }
    ensures met { let at = reader S.left S.faults in
        partners.MeetsLiterals held.now assumed.now
        (at window.old src.old) (at window.new src.new) result }
    ensures blank { IsBlank table.new }
    ensures memory { IsErrOf result LineFault.Memory → ⊥ }
{
    if pass_same(window, held, assumed) {
        return meet_same(window, src, held);
    }
    mark_held(table, dense, held);
    mark_assumed(table, dense, assumed);
    let found = find_literals(window, src, dense, table);
    let unmet = first_unmet(table, dense, held);
    clear(table, dense, held);
    clear(table, dense, assumed);
    match found {
        Ok(found) => Ok(Met {
            stranger: found.stranger,
            unmet,
            claim: found.claim,
        }),
        Err(fault) => Err(fault),
    }
}

/// The first of a line's literals that isn't held, and the first that isn't assumed.
#[derive(Clone, Copy)]
pub(crate) struct Found {
    pub(crate) stranger: Option<Lit>,
    pub(crate) claim: Option<Lit>,
}

/// Reads the body of a line, literals and a 0, and marks the literals as met that are held.
pub(crate) fn find_literals<S: Source>(
    window: &mut Window,
    src: &mut S,
    dense: &Dense,
    table: &mut [Mark],
) -> Result<Found, LineFault>
    ensures found { let at = reader S.left S.faults in
        partners.FindsLiterals dense.now table.old table.new
        (at window.old src.old) (at window.new src.new) result }
    ensures kept { partners.KeepsBlank table.old table.new }
    ensures memory { IsErrOf result LineFault.Memory → ⊥ }
{
    let mut stranger = None;
    let mut claim = None;
    'literals: loop {
        match next_word::<S, LiteralWords>(window, src) {
            Ok(Some(l)) => {
                let mark = meet_literal(table, dense, l);
                stranger = first_of(stranger, !mark.held, l);
                claim = first_of(claim, !mark.assumed, l);
            }
            Ok(None) => match end_line(window, src) {
                Ok(()) => return Ok(Found { stranger, claim }),
                Err(fault) => return Err(fault),
            },
            Err(fault) => return Err(fault),
        }
    }
}

/// What was found, or else this literal, if it counts.
fn first_of(found: Option<Lit>, counts: bool, l: Lit) -> Option<Lit>
    ensures { result ≡ option_or found (if counts then Some l else None) }
{
    match found {
        Some(first) => Some(first),
        None => if counts { Some(l) } else { None },
    }
}
