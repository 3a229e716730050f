// The kinds of words of all lines: letters, literals and ids of lists, and statuses.
ghost use Rattle.std.specs.Prelude.{◌≡◌, true, codes};
ghost use Rattle.slice_tokens.specs.Front.{IsWordFront};
ghost use Rattle.session_rules.specs.declared.Rule.TheVariants as rules;
ghost use Rattle.session_rules.specs.Reading as reading;
ghost use Rattle.line_reading.specs.Kinds.{letter_says, literal_says, id_says, own_id_says, status_says};

use crate::words::WordKind;
use lits::{IdWord, Lit, LitWord, front_id, front_literal, front_zero, id_word, literal_word};
use session_rules::{Id, Letter, Rule, StatusWord};

/// The letter that a word is.
pub(crate) fn letter_of(word: &[u8]) -> Letter
    ensures { result ≡ reading.letter_of word.now }
{
    match word {
        [b'i'] => Letter::Input,
        [b'q'] => Letter::Query,
        [b's'] => Letter::Status,
        [b'm'] => Letter::Model,
        [b'u'] => Letter::Core,
        [b'l'] => Letter::Lemma,
        [b'd'] => Letter::Deletion,
        [b'w'] => Letter::Weakening,
        [b'r'] => Letter::Restoring,
        [b'v'] => Letter::Values,
        [b'f'] => Letter::Failed,
        _ => Letter::NoLetter,
    }
}

// Whether a word of one byte stands at the front of some bytes, and a space behind it.
#[inline(always)]
#[tactic(auto, using(crate::proofs::Fronts::single_front))]
fn is_single(bytes: &[u8]) -> bool
    ensures { result ≡ true → IsWordFront bytes.now 1 }
{
    bytes.len() > 1 && bytes[0] > b' ' && bytes[1] == b' '
}

/// The letter that begins a line.
pub struct LetterWords;

impl WordKind for LetterWords {
    type Value = Letter;

    ghost says = { letter_says };

    ghost missing = { rules.Letter };

    ghost long = { rules.Letter };

    #[tactic(auto, unfolding(crate::specs::Kinds::letter_says))]
    fn read(word: &[u8]) -> Result<Letter, Rule> {
        match letter_of(word) {
            Letter::NoLetter => Err(Rule::Letter),
            letter => Ok(letter),
        }
    }

    #[inline(always)]
    #[tactic(auto, unfolding(crate::specs::Kinds::letter_says))]
    fn front(bytes: &[u8]) -> Option<(usize, Letter)> {
        if !is_single(bytes) {
            return None;
        }
        match letter_of(&bytes[..1]) {
            Letter::NoLetter => None,
            letter => Some((1, letter)),
        }
    }

    fn missing() -> Rule {
        Rule::Letter
    }

    fn long() -> Rule {
        Rule::Letter
    }
}

/// A literal of a list, or none where the 0 at its end stands.
pub struct LiteralWords;

impl WordKind for LiteralWords {
    type Value = Option<Lit>;

    ghost says = { literal_says };

    ghost missing = { rules.Unclosed };

    ghost long = { rules.Number };

    #[tactic(auto, unfolding(crate::specs::Kinds::literal_says))]
    fn read(word: &[u8]) -> Result<Option<Lit>, Rule> {
        match literal_word(word) {
            LitWord::Zero => Ok(None),
            LitWord::Value(l) => Ok(Some(l)),
            LitWord::NotNumber => Err(Rule::Number),
            LitWord::OutOfRange => Err(Rule::Range),
        }
    }

    #[inline(always)]
    #[tactic(auto, using(crate::proofs::Fronts::literal_zero))]
    fn front(bytes: &[u8]) -> Option<(usize, Option<Lit>)> {
        match front_literal(bytes) {
            Some((count, l)) => Some((count, Some(l))),
            None => {
                if front_zero(bytes) {
                    Some((1, None))
                } else {
                    None
                }
            }
        }
    }

    fn missing() -> Rule {
        Rule::Unclosed
    }

    fn long() -> Rule {
        Rule::Number
    }
}

/// An id of a list, or none where the 0 at its end stands.
pub struct IdWords;

impl WordKind for IdWords {
    type Value = Option<Id>;

    ghost says = { id_says };

    ghost missing = { rules.Unclosed };

    ghost long = { rules.Number };

    #[tactic(auto, unfolding(crate::specs::Kinds::id_says))]
    fn read(word: &[u8]) -> Result<Option<Id>, Rule> {
        match id_word(word) {
            IdWord::Zero => Ok(None),
            IdWord::Value(id) => Ok(Some(id)),
            IdWord::NotNumber => Err(Rule::Number),
            IdWord::OutOfRange => Err(Rule::Range),
        }
    }

    #[inline(always)]
    #[tactic(auto, using(crate::proofs::Fronts::id_zero))]
    fn front(bytes: &[u8]) -> Option<(usize, Option<Id>)> {
        match front_id(bytes) {
            Some((count, id)) => Some((count, Some(id))),
            None => {
                if front_zero(bytes) {
                    Some((1, None))
                } else {
                    None
                }
            }
        }
    }

    fn missing() -> Rule {
        Rule::Unclosed
    }

    fn long() -> Rule {
        Rule::Number
    }
}

/// The line's own id, which isn't 0.
pub struct OwnIdWords;

impl WordKind for OwnIdWords {
    type Value = Id;

    ghost says = { own_id_says };

    ghost missing = { rules.Unclosed };

    ghost long = { rules.Number };

    #[tactic(auto, unfolding(crate::specs::Kinds::own_id_says))]
    fn read(word: &[u8]) -> Result<Id, Rule> {
        match id_word(word) {
            IdWord::Zero => Err(Rule::Range),
            IdWord::Value(id) => Ok(id),
            IdWord::NotNumber => Err(Rule::Number),
            IdWord::OutOfRange => Err(Rule::Range),
        }
    }

    #[inline(always)]
    #[tactic(auto, using(crate::proofs::Fronts::own_id_front))]
    fn front(bytes: &[u8]) -> Option<(usize, Id)> {
        match front_id(bytes) {
            Some((count, id)) => Some((count, id)),
            None => None,
        }
    }

    fn missing() -> Rule {
        Rule::Unclosed
    }

    fn long() -> Rule {
        Rule::Number
    }
}

// Whether two words are the same.
#[tactic(auto, unfolding(session_rules::specs::Reading::same_word))]
pub(crate) fn same_word(word: &[u8], name: &[u8]) -> bool
    ensures { result ≡ reading.same_word word.now name.now }
{
    word.len() == name.len() && word.starts_with(name)
}

/// A status.
pub struct StatusWords;

impl WordKind for StatusWords {
    type Value = StatusWord;

    ghost says = { status_says };

    ghost missing = { rules.Word };

    ghost long = { rules.Word };

    #[tactic(auto, unfolding(crate::specs::Kinds::status_says))]
    fn read(word: &[u8]) -> Result<StatusWord, Rule> {
        if same_word(word, b"SATISFIABLE") {
            Ok(StatusWord::Satisfiable)
        } else if same_word(word, b"UNSATISFIABLE") {
            Ok(StatusWord::Unsatisfiable)
        } else if same_word(word, b"UNKNOWN") {
            Ok(StatusWord::Unknown)
        } else {
            Err(Rule::Word)
        }
    }

    fn front(bytes: &[u8]) -> Option<(usize, StatusWord)> {
        None
    }

    fn missing() -> Rule {
        Rule::Word
    }

    fn long() -> Rule {
        Rule::Word
    }
}
