// A word that is written as a number: a literal or an id. What is said of lists of one holds of lists of the other.
ghost use Rattle.std.specs.Prelude.{◌≡◌, ℕ, ◌+◌, ◌<◌, ◌≤◌, ◌∷◌, ◌++◌, List, length, decimal};
ghost use Rattle.lits.specs.Word.{literal_text};

use crate::writing::digits::digit_count;
use crate::writing::held::{Held, LONGEST, SIZE};
use lits::Lit;
use session_rules::Id;

pub(super) trait Numeral {
    // The word.
    ghost text: { Self → List ℕ };

    // How many bytes the word has.
    fn length(&self) -> u64
        ensures length { result ≡ length (text self.now) }
        ensures bound { result < LONGEST };

    // Puts a space and the word into what is held.
    fn push_to(&self, held: &mut Held)
        requires { length held.old + LONGEST ≤ SIZE }
        ensures { held.new ≡ held.old ++ (32 ∷ text self.now) };
}

impl Numeral for Lit {
    ghost text = { literal_text };

    fn length(&self) -> u64 {
        digit_count(self.var() as u64) as u64 + if self.positive() { 0 } else { 1 }
    }

    fn push_to(&self, held: &mut Held) {
        held.push(b' ');
        if !self.positive() {
            held.push(b'-');
        }
        held.push_number(self.var() as u64);
    }
}

impl Numeral for Id {
    ghost text = { decimal };

    fn length(&self) -> u64 {
        digit_count(*self) as u64
    }

    fn push_to(&self, held: &mut Held) {
        held.push(b' ');
        held.push_number(*self);
    }
}
