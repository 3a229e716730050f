// How the partners of the proof's event are held against it: the event's literals are marked in a table, and the lines' are
// looked up there as they come, so that no list is stored.

ghost use Rattle.std.specs.Prelude.{◌≡◌, ◌≤◌, ℕ, List, false, length, slice_get, option_map, All, IsErrOf};
ghost use Rattle.std.specs.Option.{option_or};
ghost use Rattle.session_rules.specs.declared.LineFault.{LineFault};
ghost use Rattle.session_rules.specs.declared.Event.{Event};
ghost use Rattle.session_rules.specs.History.{event_literals};
ghost use Rattle.session_rules.specs.Pair.{pair_faults, owes_partner, same_letter, same_status};
ghost use Rattle.line_reading.specs.Readers.{reader};
ghost use Rattle.icnf_lines.specs.Marks.{AreKnown, HasRoom, IsBlank};
ghost use Rattle.icnf_lines.specs.Matching.{LineMatched};
ghost use Rattle.icnf_lines.specs.NextLine.{NextMatched};
ghost use Rattle.icnf_lines.specs.Parts.{whole_letter};
ghost use Rattle.icnf_lines.specs.Partners as partners;

use crate::marks::{Mark, Marks};
use crate::meeting::{Met, meet};
use crate::runs::{match_run, tells_part};
use line_reading::{enter_line, peek_letter, status_body};
use lits::{Dense, Lit};
use outside::Source;
use session_rules::{Event, Letter, LineFault, Rule, StatusWord};
use slice_tokens::Window;

/// How the partners of the proof's event stand to it.
#[derive(Clone, Copy, Debug, PartialEq, Eq)]
pub enum Match {
    /// None of them breaks a rule.
    Agrees,
    /// The event owes a partner, and no line is left.
    Ended,
    /// The first that isn't the event's partner breaks this rule first.
    Differs(Rule),
}

/// Why the partners weren't held against the event.
#[derive(Clone, Copy, Debug, PartialEq, Eq)]
pub enum MatchFault {
    /// A line breaks this rule of syntax.
    Syntax(Rule),
    /// A read failed.
    Read,
}

/// Goes on to the partners of the proof's event and holds them against it, under the literals of the proof's last query. The
/// partner of an input, a query or a status is the next content line. Those of a model are the next line, where it begins with
/// `m`, or else the lines with `v` that come next, which may be none; those of a core are a line with `u` or lines with `f`. No
/// line is stored, and no memory is taken: literals are looked up in the table by their variables' numbers. Each
/// variable of the event and of the query has to have a number, and the table room for as many; it has no mark after any answer.
/// A literal of a line whose variable has no number is in neither the event nor the query.
///
/// `Agrees` where no partner breaks a rule. The window then stands in the partner, or, behind lines with `v` or `f` and where
/// there is none, before the first word of the next content line or at the end of the stream. `Ended` comes exactly where an
/// input, a query or a status has no line left. `Differs` has the first of the rules Kind, Content, Status, ModelPart, CorePart,
/// CoreClaim and FailedPart that the first partner at fault breaks, and the window stands in that line.
///
/// # Errors
///
/// `Syntax` comes exactly where the first partner at fault breaks a rule of syntax, and is that of its first word at fault; the
/// window then stands in that line. A line that the bound cuts before its first word ended counts as a partner, with the rule
/// Length. `Read` comes only where the source's count rose; the window then stands in the line that was being read, or before
/// it where its first word wasn't reached.
pub fn match_line<S: Source>(
    window: &mut Window,
    src: &mut S,
    event: &Event,
    assumed: &[Lit],
    marks: &mut Marks,
    dense: &Dense,
) -> Result<Match, MatchFault>
    requires event { AreKnown dense.now (event_literals event.now) }
    requires assumed { AreKnown dense.now assumed.now }
    requires room { length dense.now ≤ marks.old }
    ensures line { let at = reader S.left S.faults in
        LineMatched event.now assumed.now (at window.old src.old) (at window.new src.new) result }
    ensures marks { marks.new ≡ marks.old }
{
    let table = marks.table.as_mut_slice();
    if owes_partner(event) {
        return match_next(window, src, event, assumed, dense, table);
    }
    match_told(window, src, event, assumed, dense, table)
}

/// Whether the event needs a partner. A model and a core need none.
fn owes_partner(event: &Event) -> bool
    ensures { result ≡ owes_partner event.now }
{
    match event {
        Event::Model(_) | Event::Core(_) => false,
        _ => true,
    }
}

/// Holds the lines that tell of a model or of a core against it, which may be none.
fn match_told<S: Source>(
    window: &mut Window,
    src: &mut S,
    event: &Event,
    assumed: &[Lit],
    dense: &Dense,
    table: &mut [Mark],
) -> Result<Match, MatchFault>
    requires free { owes_partner event.now ≡ false }
    requires event { AreKnown dense.now (event_literals event.now) }
    requires assumed { AreKnown dense.now assumed.now }
    requires room { HasRoom (length table.old) dense.now }
    requires blank { IsBlank table.old }
    ensures line { let at = reader S.left S.faults in
        LineMatched event.now assumed.now (at window.old src.old) (at window.new src.new) result }
    ensures blank { IsBlank table.new }
{
    match peek_letter(window, src) {
        Ok(Some(letter)) => {
            if tells_whole(event, letter) {
                return match_next(window, src, event, assumed, dense, table);
            }
            if tells_part(event, letter) {
                return match_run(window, src, event, dense, table);
            }
            Ok(Match::Agrees)
        }
        Ok(None) => Ok(Match::Agrees),
        Err(fault) => Err(match_fault(fault)),
    }
}

/// Whether a line with this letter tells all of the event, which is a model or a core.
fn tells_whole(event: &Event, letter: Letter) -> bool
    ensures { result ≡ same_letter letter (whole_letter event.now) }
{
    match event {
        Event::Core(_) => matches!(letter, Letter::Core),
        _ => matches!(letter, Letter::Model),
    }
}

/// Goes to the next content line and holds it against the event. `Ended` comes exactly at the end of the stream.
fn match_next<S: Source>(
    window: &mut Window,
    src: &mut S,
    event: &Event,
    assumed: &[Lit],
    dense: &Dense,
    table: &mut [Mark],
) -> Result<Match, MatchFault>
    requires event { AreKnown dense.now (event_literals event.now) }
    requires assumed { AreKnown dense.now assumed.now }
    requires room { HasRoom (length table.old) dense.now }
    requires blank { IsBlank table.old }
    ensures line { let at = reader S.left S.faults in
        NextMatched event.now assumed.now (at window.old src.old) (at window.new src.new) result }
    ensures blank { IsBlank table.new }
{
    match enter_line(window, src) {
        Ok(None) => Ok(Match::Ended),
        Ok(Some(letter)) => answer_of(partner_rule(
            window, src, letter, event, assumed, dense, table,
        )),
        Err(fault) => Err(match_fault(fault)),
    }
}

/// The answer about the line: it breaks this rule, or none, or is at fault.
fn answer_of(rule: Result<Option<Rule>, LineFault>) -> Result<Match, MatchFault>
    ensures { result ≡ partners.answer_of rule }
{
    match rule {
        Ok(None) => Ok(Match::Agrees),
        Ok(Some(rule)) => Ok(Match::Differs(rule)),
        Err(fault) => Err(match_fault(fault)),
    }
}

/// The fault of a line, which isn't want of memory.
pub(crate) fn match_fault(fault: LineFault) -> MatchFault
    ensures { result ≡ partners.match_fault fault }
{
    match fault {
        LineFault::Syntax(rule) => MatchFault::Syntax(rule),
        LineFault::Read | LineFault::Memory => MatchFault::Read,
    }
}

/// The first rule that a line with this letter breaks as the partner of the event. The table has no mark then.
fn partner_rule<S: Source>(
    window: &mut Window,
    src: &mut S,
    letter: Letter,
    event: &Event,
    assumed: &[Lit],
    dense: &Dense,
    table: &mut [Mark],
) -> Result<Option<Rule>, LineFault>
    requires event { AreKnown dense.now (event_literals event.now) }
    requires assumed { AreKnown dense.now assumed.now }
    requires room { HasRoom (length table.old) dense.now }
    requires blank { IsBlank table.old }
    ensures rule { let at = reader S.left S.faults in
        partners.BodyAnswers letter event.now assumed.now
        (at window.old src.old) (at window.new src.new) result }
    ensures blank { IsBlank table.new }
    ensures memory { IsErrOf result LineFault.Memory → ⊥ }
{
    match letter {
        Letter::Input
        | Letter::Query
        | Letter::Model
        | Letter::Core
        | Letter::Values
        | Letter::Failed => literals_rule(window, src, letter, event, assumed, dense, table),
        Letter::Status => match status_body(window, src) {
            Ok(status) => Ok(status_rule(event, status)),
            Err(fault) => Err(fault),
        },
        _ => {
            window.recall_bounds();
            Err(LineFault::Syntax(Rule::Letter))
        }
    }
}

/// The rule that a status breaks as the partner of the event.
#[tactic(auto, unfolding(session_rules::specs::Pair::pair_faults))]
fn status_rule(event: &Event, status: StatusWord) -> Option<Rule>
    ensures { (qs : List ℕ) → slice_get (pair_faults qs event.now (Event.Status status)) 0 ≡ result }
{
    match event {
        Event::Status(expected) => if same_status(*expected, status) {
            None
        } else {
            Some(Rule::Status)
        },
        _ => Some(Rule::Kind),
    }
}

/// Whether two statuses are the same.
fn same_status(status: StatusWord, other: StatusWord) -> bool
    ensures { result ≡ same_status status other }
{
    match status {
        StatusWord::Satisfiable => matches!(other, StatusWord::Satisfiable),
        StatusWord::Unsatisfiable => matches!(other, StatusWord::Unsatisfiable),
        StatusWord::Unknown => matches!(other, StatusWord::Unknown),
    }
}

/// The first rule that a line breaks which has literals behind this letter.
fn literals_rule<S: Source>(
    window: &mut Window,
    src: &mut S,
    letter: Letter,
    event: &Event,
    assumed: &[Lit],
    dense: &Dense,
    table: &mut [Mark],
) -> Result<Option<Rule>, LineFault>
    requires letter { partners.HasLiterals letter }
    requires event { AreKnown dense.now (event_literals event.now) }
    requires assumed { AreKnown dense.now assumed.now }
    requires room { HasRoom (length table.old) dense.now }
    requires blank { IsBlank table.old }
    ensures rule { let at = reader S.left S.faults in
        partners.BodyAnswers letter event.now assumed.now
        (at window.old src.old) (at window.new src.new) result }
    ensures blank { IsBlank table.new }
    ensures memory { IsErrOf result LineFault.Memory → ⊥ }
{
    match meet(
        window,
        src,
        event.lits(),
        assumed_in(letter, assumed),
        dense,
        table,
    ) {
        Ok(met) => Ok(rule_of(letter, event, met)),
        Err(fault) => Err(fault),
    }
}

/// The literals that count as assumed in a line with this letter.
fn assumed_in(letter: Letter, assumed: &[Lit]) -> &[Lit]
    ensures { result.now ≡ partners.assumed_in letter assumed.now }
{
    match letter {
        Letter::Core => assumed,
        _ => &[],
    }
}

/// The rule that a line with this letter breaks.
fn rule_of(letter: Letter, event: &Event, met: Met) -> Option<Rule>
    ensures { result ≡ partners.rule_of letter event.now met }
{
    match letter {
        Letter::Input => match event {
            Event::Input(_) => content_rule(met.stranger, met.unmet),
            _ => Some(Rule::Kind),
        },
        Letter::Query => match event {
            Event::Query(_) => content_rule(met.stranger, met.unmet),
            _ => Some(Rule::Kind),
        },
        Letter::Model => match event {
            Event::Model(_) => model_rule(met.stranger),
            _ => Some(Rule::Kind),
        },
        Letter::Core => match event {
            Event::Core(_) => core_rule(met.unmet, met.claim),
            _ => Some(Rule::Kind),
        },
        Letter::Values => match event {
            Event::Model(_) => model_rule(met.stranger),
            _ => Some(Rule::Kind),
        },
        Letter::Failed => match event {
            Event::Core(_) => failed_rule(met.stranger),
            _ => Some(Rule::Kind),
        },
        _ => Some(Rule::Kind),
    }
}

/// Content, where one set has a literal that the other lacks.
fn content_rule(stranger: Option<Lit>, unmet: Option<Lit>) -> Option<Rule>
    ensures { result ≡ partners.content_rule stranger unmet }
{
    match stranger {
        Some(_) => Some(Rule::Content),
        None => match unmet {
            Some(_) => Some(Rule::Content),
            None => None,
        },
    }
}

/// ModelPart, where the line has a literal that the event lacks.
pub(crate) fn model_rule(stranger: Option<Lit>) -> Option<Rule>
    ensures { result ≡ option_map Rule.ModelPart stranger }
{
    match stranger {
        Some(l) => Some(Rule::ModelPart(l)),
        None => None,
    }
}

/// CorePart, where the line lacks a literal of the event, or else CoreClaim, where it has one that isn't assumed.
fn core_rule(unmet: Option<Lit>, claim: Option<Lit>) -> Option<Rule>
    ensures { result ≡ option_or (option_map Rule.CorePart unmet) (option_map Rule.CoreClaim claim) }
{
    match unmet {
        Some(l) => Some(Rule::CorePart(l)),
        None => match claim {
            Some(l) => Some(Rule::CoreClaim(l)),
            None => None,
        },
    }
}

/// FailedPart, where the line has a literal that the event lacks.
pub(crate) fn failed_rule(stranger: Option<Lit>) -> Option<Rule>
    ensures { result ≡ option_map Rule.FailedPart stranger }
{
    match stranger {
        Some(l) => Some(Rule::FailedPart(l)),
        None => None,
    }
}
