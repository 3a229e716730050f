// How lines that tell parts of a model or of a core, one after another, are held against it: its literals are marked once, and
// no literal of the lines may be another.

ghost use Rattle.std.specs.Prelude.{◌≡◌, ◌<◌, ℕ, List, false, Ok, length, All};
ghost use Rattle.session_rules.specs.History.{event_literals};
ghost use Rattle.session_rules.specs.Pair.{owes_partner, run_length, same_letter};
ghost use Rattle.line_reading.specs.Readers.{reader};
ghost use Rattle.icnf_lines.specs.Marks.{AreKnown, HasRoom, IsBlank};
ghost use Rattle.icnf_lines.specs.Partners.{KeepsBlank};
ghost use Rattle.icnf_lines.specs.Matching.{Matched};
ghost use Rattle.icnf_lines.specs.Parts as parts;

use crate::marks::{Mark, clear, mark_held};
use crate::matching::{Match, MatchFault, failed_rule, match_fault, model_rule};
use crate::meeting::find_literals;
use line_reading::{enter_line, peek_letter};
use lits::{Dense, Lit};
use outside::Source;
use session_rules::{Event, Letter, Rule};
use slice_tokens::Window;

/// Whether a line with this letter tells a part of the event, which is a model or a core.
pub(crate) fn tells_part(event: &Event, letter: Letter) -> bool
    ensures { result ≡ same_letter letter (parts.part_letter event.now) }
{
    match event {
        Event::Core(_) => matches!(letter, Letter::Failed),
        _ => matches!(letter, Letter::Values),
    }
}

/// The rule that a line breaks which tells a part of the event, where it has a literal that the event lacks.
fn part_rule(event: &Event, stranger: Option<Lit>) -> Option<Rule>
    ensures { result ≡ parts.part_rule event.now stranger }
{
    match event {
        Event::Core(_) => failed_rule(stranger),
        _ => model_rule(stranger),
    }
}

/// Holds the lines that tell parts of the event against it, as many as come next, and stops before the line behind them. The
/// event's literals are marked once for all of them.
pub(crate) fn match_run<S: Source>(
    window: &mut Window,
    src: &mut S,
    event: &Event,
    dense: &Dense,
    table: &mut [Mark],
) -> Result<Match, MatchFault>
    requires free { owes_partner event.now ≡ false }
    requires event { AreKnown dense.now (event_literals event.now) }
    requires room { HasRoom (length table.old) dense.now }
    requires blank { IsBlank table.old }
    ensures run { (qs : List ℕ) → let at = reader S.left S.faults in
        Matched (run_length (parts.part_letter event.now)) event.now qs
        (at window.old src.old) (at window.new src.new) result }
    ensures blank { IsBlank table.new }
{
    mark_held(table, dense, event.lits());
    let answer = match_parts(window, src, event, dense, table);
    clear(table, dense, event.lits());
    answer
}

/// The same where the event's literals are marked.
fn match_parts<S: Source>(
    window: &mut Window,
    src: &mut S,
    event: &Event,
    dense: &Dense,
    table: &mut [Mark],
) -> Result<Match, MatchFault>
    requires free { owes_partner event.now ≡ false }
    requires held { parts.AreHeld dense.now table.old (event_literals event.now) }
    ensures run { (qs : List ℕ) → let at = reader S.left S.faults in
        Matched (run_length (parts.part_letter event.now)) event.now qs
        (at window.old src.old) (at window.new src.new) result }
    ensures kept { KeepsBlank table.old table.new }
{
    'lines: loop {
        match next_part(window, src, event, dense, table) {
            Ok(Match::Agrees) => {}
            Ok(Match::Ended) => return Ok(Match::Agrees),
            Ok(Match::Differs(rule)) => return Ok(Match::Differs(rule)),
            Err(fault) => return Err(fault),
        }
    }
}

/// Holds the next line against the event, if it tells a part of it; else it answers `Ended`, and the line is still the next one.
fn next_part<S: Source>(
    window: &mut Window,
    src: &mut S,
    event: &Event,
    dense: &Dense,
    table: &mut [Mark],
) -> Result<Match, MatchFault>
    requires free { owes_partner event.now ≡ false }
    requires held { parts.AreHeld dense.now table.old (event_literals event.now) }
    ensures part { (qs : List ℕ) → let at = reader S.left S.faults in
        parts.PartMatched parts.AnyLines event.now qs (at window.old src.old) (at window.new src.new) result }
    ensures progress { result ≡ Ok Match.Agrees → window.old.passed < window.new.passed }
    ensures held { result ≡ Ok Match.Agrees → parts.AreHeld dense.now table.new (event_literals event.now) }
    ensures kept { KeepsBlank table.old table.new }
{
    match peek_letter(window, src) {
        Ok(Some(letter)) => {
            if tells_part(event, letter) {
                return match_part(window, src, event, dense, table);
            }
            Ok(Match::Ended)
        }
        Ok(None) => Ok(Match::Ended),
        Err(fault) => Err(match_fault(fault)),
    }
}

/// Reads the next line, which tells a part of the event, and holds it against the event.
fn match_part<S: Source>(
    window: &mut Window,
    src: &mut S,
    event: &Event,
    dense: &Dense,
    table: &mut [Mark],
) -> Result<Match, MatchFault>
    requires free { owes_partner event.now ≡ false }
    requires held { parts.AreHeld dense.now table.old (event_literals event.now) }
    ensures part { (qs : List ℕ) → let at = reader S.left S.faults in
        parts.PartMatched (parts.BeginWith (parts.part_letter event.now)) event.now qs
        (at window.old src.old) (at window.new src.new) result }
    ensures progress { result ≡ Ok Match.Agrees → window.old.passed < window.new.passed }
    ensures held { result ≡ Ok Match.Agrees → parts.AreHeld dense.now table.new (event_literals event.now) }
    ensures kept { KeepsBlank table.old table.new }
{
    match enter_line(window, src) {
        Ok(Some(_)) => match find_literals(window, src, dense, table) {
            Ok(found) => match part_rule(event, found.stranger) {
                None => Ok(Match::Agrees),
                Some(rule) => Ok(Match::Differs(rule)),
            },
            Err(fault) => Err(match_fault(fault)),
        },
        Ok(None) => Ok(Match::Ended),
        Err(fault) => Err(match_fault(fault)),
    }
}
