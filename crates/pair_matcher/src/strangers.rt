// Cores with a literal that has no number. Such a literal is no assumption, so the core has a stranger, which is looked for among
// the literals before it.

ghost use Rattle.std.specs.Prelude.{◌≡◌, ℕ, List, false, Some, IsTrue, option_map};
ghost use Rattle.lits.specs.Numbering.{are_known, dense_lits};
ghost use Rattle.numbered_lits.specs.Numbers.{known_front};
ghost use Rattle.session_rules.specs.declared.Rule.TheVariants as rules;
ghost use Rattle.session_rules.specs.History.{first_missing};

use crate::literals::shown_rule;
use lits::Lit;
use numbered_lits::Numbers;
use session_events::Events;
use session_rules::Rule;

/// CoreStranger with the first literal of a core that is no assumption. The literals before the first without a number were
/// translated. It takes no memory.
pub fn first_stranger(events: &mut Events, numbers: &Numbers, u: &[Lit]) -> Rule
    requires strange { are_known numbers.now.vars u.now ≡ false }
    requires front { numbers.now.lits ≡ dense_lits numbers.now.vars (known_front numbers.now.vars u.now) }
    ensures rule { (given : List ℕ) → IsTrue (are_known numbers.now.vars given) → events.old.assumed ≡ dense_lits numbers.now.vars given
        → option_map rules.CoreStranger (first_missing u.now given) ≡ Some result }
    ensures unchanged { events.new ≡ events.old }
{
    let known = numbers.lits();
    match events.core_rule(known) {
        Some(rule) => shown_rule(rule, numbers.dense()),
        None => Rule::CoreStranger(u[known.len()]),
    }
}
