// The rules of models and cores, over the parts of the state. Each ticks one list, goes through the others, and leaves the
// table clean.

ghost use Rattle.std.specs.Prelude.{◌≡◌, ◌++◌, [], length, not, All, slice_get};
ghost use Rattle.std.specs.List.{find, list_any, position_from};
ghost use Rattle.session_rules.specs.History.{broken_at, first_missing};
ghost use Rattle.session_events.specs.State.{model_rules_of};
ghost use Rattle.session_events.specs.Ticks.{is_ticked, Ticks, HasPlace};

use crate::clause_list::ClauseList;
use crate::ticks::{first_unticked, tick, untick};
use lits::Lit;
use session_rules::Rule;

/// The first rule that a model breaks.
pub(crate) fn of_model(
    ticks: &mut [bool],
    assumed: &[Lit],
    inputs: &ClauseList,
    m: &[Lit],
) -> Option<Rule>
    requires clean { Ticks ticks.old [] }
    requires model { All (HasPlace (length ticks.old)) m.now }
    requires clauses { All (λ c. All (HasPlace (length ticks.old)) c) inputs.now }
    ensures rule { result ≡ slice_get (model_rules_of assumed.now inputs.now m.now) 0 }
    ensures clean { Ticks ticks.new [] }
{
    let clash = tick(ticks, m);
    let rule = match clash {
        Some(l) => Some(Rule::ModelClash(l)),
        None => unmet(ticks, assumed, inputs),
    };
    untick(ticks, m);
    rule
}

/// The first rule that the ticked literals, which have no opposites, break as a model.
fn unmet(ticks: &[bool], assumed: &[Lit], inputs: &ClauseList) -> Option<Rule>
    requires { All (λ c. All (HasPlace (length ticks.now)) c) inputs.now }
    ensures { result ≡ slice_get (broken_at Rule.ModelAssumption (find (λ l. not (is_ticked ticks.now l)) assumed.now)
        ++ broken_at Rule.ModelInput (position_from (λ c. not (list_any (is_ticked ticks.now) c)) 1 inputs.now)) 0 }
{
    match first_unticked(ticks, assumed) {
        Some(l) => Some(Rule::ModelAssumption(l)),
        None => match inputs.first_unmet(ticks) {
            Some(number) => Some(Rule::ModelInput(number)),
            None => None,
        },
    }
}

/// The first rule that a core breaks.
pub(crate) fn of_core(ticks: &mut [bool], assumed: &[Lit], u: &[Lit]) -> Option<Rule>
    requires clean { Ticks ticks.old [] }
    requires assumptions { All (HasPlace (length ticks.old)) assumed.now }
    ensures rule { result ≡ slice_get (broken_at Rule.CoreStranger (first_missing u.now assumed.now)) 0 }
    ensures clean { Ticks ticks.new [] }
{
    tick(ticks, assumed);
    let stranger = first_unticked(ticks, u);
    untick(ticks, assumed);
    match stranger {
        Some(l) => Some(Rule::CoreStranger(l)),
        None => None,
    }
}
