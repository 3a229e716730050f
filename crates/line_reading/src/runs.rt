// Literals that stand one after another, each behind one space, so that one look at the bytes that are held tells them all.
ghost use Rattle.std.specs.Prelude.{◌≡◌, ℕ, ◌≤◌, ◌++◌, List, Option, false, Ok, Some, None, length, IfOk, IfSome, IfNone, MatchBool};
ghost use Rattle.std.specs.Bool.{OnTrue};
ghost use Rattle.session_rules.specs.Reading.{literal_list};
ghost use Rattle.slice_tokens.specs.Place.{ahead, WhereTold};
ghost use Rattle.slice_tokens.specs.Front.{coming};
ghost use Rattle.line_reading.specs.Parts.{ReadsPart, Stays};
ghost use Rattle.line_reading.specs.Runs.{begins_with_space, IsSpaced, IsRun, IsWholeRun};

use lits::{Lit, Lits, front_literal, front_zero};
use slice_tokens::Window;
use std::alloc::AllocError;

// Whether a space stands in front.
#[inline(always)]
fn begins_with_space(bytes: &[u8]) -> bool
    ensures { result ≡ begins_with_space bytes.now }
{
    !bytes.is_empty() && bytes[0] == b' '
}

// The literal whose word stands behind a space in front of some bytes, and how many bytes the word has.
#[inline(always)]
fn spaced_literal(bytes: &[u8]) -> Option<(usize, Lit)>
    ensures some { IfSome result (λ r. IsSpaced (Some r.1) bytes.now r.0) }
    ensures none { IfNone result ((n l : ℕ) → IsSpaced (Some l) bytes.now n → ⊥) }
{
    if !begins_with_space(bytes) {
        return None;
    }
    match front_literal(&bytes[1..]) {
        Some((count, l)) => Some((count, l)),
        None => None,
    }
}

// Whether the 0 at a list's end stands behind a space in front of some bytes.
#[inline(always)]
fn spaced_zero(bytes: &[u8]) -> bool
    ensures yes { OnTrue result (IsSpaced None bytes.now 1) }
    ensures no { result ≡ false → (n : ℕ) → IsSpaced None bytes.now n → ⊥ }
{
    if !begins_with_space(bytes) {
        return false;
    }
    front_zero(&bytes[1..])
}

/// Puts the literals in front of some bytes, each behind one space, at the end of a list. It tells how many bytes they are,
/// and whether the 0 at their list's end stands behind them, which then counts with its space.
pub(crate) fn push_run(bytes: &[u8], lits: &mut Lits) -> Result<(usize, bool), AllocError>
    ensures run { IfOk result (λ r. (ls : List ℕ) × MatchBool r.1 (IsWholeRun ls bytes.now r.0) (IsRun ls bytes.now r.0) × (lits.new ≡ lits.old ++ ls)) }
    ensures within { IfOk result (λ r. r.0 ≤ length bytes.now) }
{
    let mut at = 0;
    'words: loop {
        let behind = &bytes[at..];
        match spaced_literal(behind) {
            Some((count, l)) => {
                lits.push(l)?;
                at += count + 1;
            }
            None => {
                if spaced_zero(behind) {
                    return Ok((at + 2, true));
                }
                return Ok((at, false));
            }
        }
    }
}

// How many bytes these literals and the 0 at their list's end are, where they stand in front of some bytes, each behind one
// space.
fn whole_run(bytes: &[u8], lits: &[Lit]) -> Option<usize>
    ensures some { IfSome result (λ n. IsWholeRun lits.now bytes.now n) }
    ensures none { IfNone result ((n : ℕ) → IsWholeRun lits.now bytes.now n → ⊥) }
{
    let mut at = 0;
    for l in lits {
        let Some((count, found)) = spaced_literal(&bytes[at..]) else {
            return None;
        };
        if found != *l {
            return None;
        }
        at += count + 1;
    }
    if spaced_zero(&bytes[at..]) {
        Some(at + 2)
    } else {
        None
    }
}

/// Reads these literals and the 0 at their list's end, where they come next, each behind one space and with a space or a line's
/// end behind it, within the bytes that are held. Where it answers false they don't come so, and nothing is read.
pub fn pass_literals(window: &mut Window, lits: &[Lit]) -> bool
    ensures stays { Stays window.old window.new }
    ensures yes { OnTrue result ((left : Option (List ℕ)) → WhereTold (ahead window.old left) (ahead window.new left)
        (λ bytes rest. ReadsPart literal_list (Ok lits.now) window.old bytes window.new rest)) }
    ensures no { result ≡ false → (n : ℕ) → IsWholeRun lits.now (coming window.old) n → ⊥ }
    ensures kept { result ≡ false → window.new ≡ window.old }
{
    match whole_run(window.coming(), lits) {
        Some(count) => {
            window.pass_over(count);
            true
        }
        None => false,
    }
}
