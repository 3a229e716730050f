// Words read as literals and ids, in one pass over their bytes. A numeral's value is gathered digit by digit, and one of
// more than 19 digits, which is beyond every limit, counts as the least number of 20 digits.

ghost use Rattle.std.specs.Prelude.{◌≡◌, ◌≢◌, ℕ, ◌+◌, ◌*◌, ◌<◌, ◌≤◌, true, false, ◌&&◌, min, nat_lt, length, take, slice_index, Some, IfSome, IfNone};
ghost use Rattle.std.specs.Bool.{OnTrue};
ghost use Rattle.std.specs.Char.{is_ascii_digit};
ghost use Rattle.std.specs.List.{list_all};
ghost use Rattle.std.specs.Option.{option_map};
ghost use Rattle.std.specs.Str.Parse.{digits_value};
ghost use Rattle.lits.specs.Word as spec;
ghost use Rattle.lits.specs.declared.LitWord.TheVariants as words;
ghost use Rattle.lits.specs.declared.IdWord.TheVariants as ids;

use crate::{IdWord, Lit, LitWord, MAX_VAR};

/// The greatest number of bytes in the word of a number.
const MAX_LEN: usize = 32;

/// How many digits are read at the front of some bytes at most: their number is far below 2^63.
const MOST_DIGITS: usize = 18;

/// The greatest id.
const MAX_ID: u64 = 9_223_372_036_854_775_807;

/// What a number of more than 19 digits counts as: the least of them.
const LARGE: u64 = 10_000_000_000_000_000_000;

/// What a word says as a literal, where one or the `0` at a list's end is due.
#[tactic(auto, unfolding(crate::specs::Word::literal_word, crate::specs::Word::magnitude, crate::specs::Word::numeral))]
pub fn literal_word(word: &[u8]) -> LitWord
    ensures { result ≡ spec.literal_word word.now }
{
    if is_zero(word) {
        return LitWord::Zero;
    }
    match magnitude(word) {
        None => LitWord::NotNumber,
        Some(size) => literal_of(starts_with_minus(word), size),
    }
}

/// What a word says as an id, where one or the `0` at a list's end is due.
#[tactic(auto, unfolding(crate::specs::Word::id_word))]
pub fn id_word(word: &[u8]) -> IdWord
    ensures { result ≡ spec.id_word word.now }
{
    if is_zero(word) {
        return IdWord::Zero;
    }
    if word.len() > MAX_LEN {
        return IdWord::NotNumber;
    }
    match numeral(word) {
        None => IdWord::NotNumber,
        Some(id) if id > MAX_ID => IdWord::OutOfRange,
        Some(id) => IdWord::Value(id),
    }
}

/// The literal whose word stands at the front of some bytes, and how many bytes the word has. None exactly where there is
/// none with a space or a line's end behind it.
#[inline(always)]
pub fn front_literal(bytes: &[u8]) -> Option<(usize, Lit)>
    ensures some { IfSome result (λ r. spec.IsFront bytes.now r.0 × (spec.literal_word (take r.0 bytes.now) ≡ words.Value r.1)) }
    ensures none { IfNone result ((n l : ℕ) → spec.IsFront bytes.now n → spec.literal_word (take n bytes.now) ≡ words.Value l → ⊥) }
{
    let minus = starts_with_minus(bytes);
    let from = if minus { 1 } else { 0 };
    match front_numeral(&bytes[from..]) {
        None => None,
        Some((count, size)) => match literal_of(minus, size) {
            LitWord::Value(l) => Some((from + count, l)),
            LitWord::Zero => None,
            LitWord::NotNumber => None,
            LitWord::OutOfRange => None,
        },
    }
}

/// The id of at most 18 digits whose word stands at the front of some bytes, and how many bytes the word has. None exactly
/// where there is none with a space or a line's end behind it.
#[inline(always)]
pub fn front_id(bytes: &[u8]) -> Option<(usize, u64)>
    ensures some { IfSome result (λ r. spec.IsFront bytes.now r.0 × (spec.id_word (take r.0 bytes.now) ≡ ids.Value r.1)) }
    ensures none { IfNone result ((n id : ℕ) → n ≤ 18 → spec.IsFront bytes.now n → spec.id_word (take n bytes.now) ≡ ids.Value id → ⊥) }
{
    match front_numeral(bytes) {
        None => None,
        Some((count, id)) => Some((count, id)),
    }
}

/// Whether the word `0` stands at the front of some bytes, and a space or a line's end behind it.
#[inline(always)]
pub fn front_zero(bytes: &[u8]) -> bool
    ensures yes { OnTrue result (spec.IsFront bytes.now 1 × (spec.literal_word (take 1 bytes.now) ≡ words.Zero) × (spec.id_word (take 1 bytes.now) ≡ ids.Zero)) }
    ensures no { result ≡ false → spec.IsFront bytes.now 1 → slice_index bytes.now 0 ≢ 48 }
{
    ends_at(bytes, 1) && bytes[0] == b'0'
}

/// The number that the digits at the front of some bytes write, and how many digits they are.
#[inline(always)]
fn front_numeral(bytes: &[u8]) -> Option<(usize, u64)>
    ensures some { IfSome result (λ r. spec.IsNumeralFront bytes.now r.0 r.1) }
    ensures none { IfNone result ((n v : ℕ) → spec.IsNumeralFront bytes.now n v → ⊥) }
{
    if !starts_above_zero(bytes) {
        return None;
    }
    let (count, value) = front_digits(bytes);
    if count >= bytes.len() {
        return None;
    }
    // nearly every number stands before a space
    let behind = bytes[count];
    if behind == b' ' {
        return Some((count, value));
    }
    if behind == b'\n' {
        return Some((count, value));
    }
    None
}

/// The first digits of some bytes, up to `MOST_DIGITS`: how many they are, and the number that they write.
#[inline(always)]
fn front_digits(bytes: &[u8]) -> (usize, u64)
    ensures few { result.0 ≤ 18 }
    ensures digits { list_all is_ascii_digit (take result.0 bytes.now) ≡ true }
    ensures value { result.1 ≡ digits_value 10 (take result.0 bytes.now) }
    ensures longest { (k : ℕ) → k ≤ 18 → k ≤ length bytes.now → list_all is_ascii_digit (take k bytes.now) ≡ true → k ≤ result.0 }
{
    let most = bytes.len().min(MOST_DIGITS);
    let mut count = 0;
    let mut value = 0;
    'digits: while count < most && bytes[count].is_ascii_digit() {
        value = value * 10 + (bytes[count] - b'0') as u64;
        count += 1;
    }
    (count, value)
}

/// Whether a space or a line's end stands at a place of some bytes.
#[inline(always)]
fn ends_at(bytes: &[u8], at: usize) -> bool
    ensures { result ≡ (nat_lt at (length bytes.now) && spec.is_end_byte (slice_index bytes.now at)) }
{
    at < bytes.len() && (bytes[at] == b' ' || bytes[at] == b'\n')
}

/// Whether a word is `0`.
fn is_zero(word: &[u8]) -> bool
    ensures { result ≡ spec.is_zero word.now }
{
    word.len() == 1 && word[0] == b'0'
}

/// Whether a minus stands in front.
fn starts_with_minus(word: &[u8]) -> bool
    ensures { result ≡ spec.starts_with_minus word.now }
{
    !word.is_empty() && word[0] == b'-'
}

/// Whether a byte above the digit 0 stands in front.
fn starts_above_zero(bytes: &[u8]) -> bool
    ensures { result ≡ nat_lt 48 (slice_index bytes.now 0) }
{
    !bytes.is_empty() && bytes[0] > b'0'
}

/// The absolute value of the number that a word writes, up to `LARGE`.
#[tactic(auto, unfolding(crate::specs::Word::magnitude))]
fn magnitude(word: &[u8]) -> Option<u64>
    ensures { result ≡ option_map (min LARGE) (spec.magnitude word.now) }
{
    if word.len() > MAX_LEN {
        None
    } else if starts_with_minus(word) {
        numeral(&word[1..])
    } else {
        numeral(word)
    }
}

/// The number that a digit from 1 to 9 and any digits write, up to `LARGE`.
fn numeral(bytes: &[u8]) -> Option<u64>
    ensures { result ≡ option_map (min LARGE) (spec.numeral bytes.now) }
{
    if !starts_above_zero(bytes) {
        return None;
    }
    let mut value = 0;
    for b in bytes {
        if !b.is_ascii_digit() {
            return None;
        }
        value = with_digit(value, *b - b'0');
    }
    Some(value)
}

/// A number with one more digit, up to `LARGE`.
fn with_digit(value: u64, digit: u8) -> u64
    requires { digit < 10 }
    ensures { result ≡ min LARGE (value * 10 + digit) }
{
    if value < LARGE / 10 {
        value * 10 + digit as u64
    } else {
        LARGE
    }
}

/// The literal of a sign and an absolute value that isn't 0.
#[inline(always)]
fn literal_of(minus: bool, size: u64) -> LitWord
    ensures { result ≡ spec.literal_of minus (Some size) }
{
    if size > MAX_VAR as u64 {
        return LitWord::OutOfRange;
    }
    let positive = 2 * (size as u32).saturating_sub(1);
    LitWord::Value(Lit {
        code: if minus { positive + 1 } else { positive },
    })
}
