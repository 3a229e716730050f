// Ticks of literals in a table by their codes.

ghost use Rattle.std.specs.Prelude.{◌≡◌, ◌*◌, [], length, not, All};
ghost use Rattle.std.specs.List.{find, list_any};
ghost use Rattle.session_rules.specs.History.{first_clash};
ghost use Rattle.session_events.specs.Ticks.{is_ticked, Ticks, Unticks, HasPlace};

use lits::Lit;

/// Ticks literals in a clean table, and gives the first whose negation stands before it.
pub(crate) fn tick(ticks: &mut [bool], lits: &[Lit]) -> Option<Lit>
    requires place { All (HasPlace (length ticks.old)) lits.now }
    requires clean { Ticks ticks.old [] }
    ensures clash { result ≡ first_clash [] lits.now }
    ensures ticked { Ticks ticks.new lits.now }
{
    let mut clash = None;
    for l in lits {
        if clash.is_none() && ticks[l.neg().code() as usize] {
            clash = Some(*l);
        }
        ticks[l.code() as usize] = true;
    }
    clash
}

/// Takes the ticks of literals away.
pub(crate) fn untick(ticks: &mut [bool], lits: &[Lit])
    requires { All (HasPlace (length ticks.old)) lits.now }
    ensures { Unticks ticks.old ticks.new lits.now }
{
    for l in lits {
        ticks[l.code() as usize] = false;
    }
}

/// Whether a literal is ticked; one beyond the table isn't.
fn is_ticked(ticks: &[bool], l: Lit) -> bool
    ensures { result ≡ is_ticked ticks.now l }
{
    let place = l.code() as usize;
    place < ticks.len() && ticks[place]
}

/// The first literal that isn't ticked.
pub(crate) fn first_unticked(ticks: &[bool], lits: &[Lit]) -> Option<Lit>
    ensures { result ≡ find (λ l. not (is_ticked ticks.now l)) lits.now }
{
    for l in lits {
        if !is_ticked(ticks, *l) {
            return Some(*l);
        }
    }
    None
}

/// Whether one of the literals is ticked.
pub(crate) fn any_ticked(ticks: &[bool], lits: &[Lit]) -> bool
    requires { All (HasPlace (length ticks.now)) lits.now }
    ensures { result ≡ list_any (is_ticked ticks.now) lits.now }
{
    for l in lits {
        if ticks[l.code() as usize] {
            return true;
        }
    }
    false
}
