// Laws of literals, clauses and words: each is a function without a body whose contract is the law.

ghost use Rattle.std.specs.Prelude.{◌≡◌, ◌≢◌, ◌+◌, ◌<◌, ◌≤◌, ◌↔◌, ◌^◌, ◌||◌, ◌⊎◌, ◌++◌, ◌∷◌, [], ℕ, ℤ, List, length, nat_eq, not, neg_ℤ, codes, decimal, Contains, IsTrue};
ghost use Rattle.std.specs.List.Sorted.{IsStrictlyIncreasing};
ghost use Rattle.std.specs.Ordering.{nat_cmp};
ghost use Rattle.std.specs.Str.Parse.{digits_value};
ghost use Rattle.std.specs.Cmp.Lexicographic.{slice_cmp};
ghost use Rattle.lits.specs.Literal.{max_var, var, positive, neg, number, of_number, IsLiteral, IsNumber};
ghost use Rattle.lits.specs.Clause.{has, is_part, same_set, is_tautology, set_of};
ghost use Rattle.lits.specs.Numbering.{IsVariable, IsNumbering, number_of, var_of, with_var, is_known, are_known, dense_lit, file_lit, dense_lits, file_lits, with_lits, numbered_lits};
ghost use Rattle.lits.specs.Word.{literal_word, id_word, literal_text, without_minus, IsNumeral};

use crate::{IdWord, LitWord};
use std::cmp::Ordering;

/// A literal's number is not 0 and within the limit, and tells the literal; negation turns its sign.
pub fn numbers_are_literals()
    ensures number { (l : ℕ) → IsLiteral l → IsNumber (number l) }
    ensures literal { (n : ℤ) → IsNumber n → IsLiteral (of_number n) }
    ensures literal_back { (l : ℕ) → of_number (number l) ≡ l }
    ensures number_back { (n : ℤ) → IsNumber n → number (of_number n) ≡ n }
    ensures negation { (l : ℕ) → number (neg l) ≡ neg_ℤ (number l) }
{}

/// Negation undoes itself, keeps the variable and turns the sign. Two literals of a variable are one, or each other's
/// negation.
pub fn negation_is_an_involution()
    ensures twice { (l : ℕ) → neg (neg l) ≡ l }
    ensures variable { (l : ℕ) → var (neg l) ≡ var l }
    ensures sign { (l : ℕ) → positive (neg l) ≡ not (positive l) }
    ensures other { (l m : ℕ) → var l ≡ var m → l ≢ m → l ≡ neg m }
    ensures limit { (l : ℕ) → IsLiteral l ↔ (var l ≤ max_var) }
{}

/// What is computed of clauses as sets says what their members say.
pub fn sets_are_their_members()
    ensures member { (c : List ℕ) (l : ℕ) → IsTrue (has c l) ↔ Contains c l }
    ensures part { (c d : List ℕ) → IsTrue (is_part c d) ↔ ((l : ℕ) → Contains c l → Contains d l) }
    ensures same { (c d : List ℕ) → IsTrue (same_set c d) ↔ ((l : ℕ) → has c l ≡ has d l) }
    ensures tautology { (c : List ℕ)
        → IsTrue (is_tautology c) ↔ ((l : ℕ) × Contains c l × Contains c (neg l)) }
{}

/// To have the same set is reflexive, symmetric and transitive.
pub fn same_set_is_an_equivalence()
    ensures reflexive { (c : List ℕ) → IsTrue (same_set c c) }
    ensures symmetric { (c d : List ℕ) → same_set c d ≡ same_set d c }
    ensures transitive { (c d e : List ℕ)
        → IsTrue (same_set c d) → IsTrue (same_set d e) → IsTrue (same_set c e) }
{}

/// Whether a clause is a part of another, and whether it is a tautology, depends on the sets alone.
pub fn tests_depend_on_sets()
    ensures part { (c c2 d d2 : List ℕ) → IsTrue (same_set c c2) → IsTrue (same_set d d2)
        → is_part c d ≡ is_part c2 d2 }
    ensures tautology { (c d : List ℕ) → IsTrue (same_set c d) → is_tautology c ≡ is_tautology d }
    ensures sorted { (c : List ℕ) → IsTrue (same_set (set_of c) c) }
{}

/// The set of a clause is the one ascending list of its members, so two clauses have the same set exactly where these
/// lists are one. The order of sets answers Equal at one list alone.
pub fn sorted_sets_are_unique()
    ensures members { (c : List ℕ) (l : ℕ) → has (set_of c) l ≡ has c l }
    ensures increasing { (c : List ℕ) → IsStrictlyIncreasing (set_of c) }
    ensures unique { (s t : List ℕ) → IsStrictlyIncreasing s → IsStrictlyIncreasing t
        → ((l : ℕ) → has s l ≡ has t l) → s ≡ t }
    ensures same { (c d : List ℕ) → IsTrue (same_set c d) ↔ (set_of c ≡ set_of d) }
    ensures order { (s t : List ℕ) → (slice_cmp nat_cmp s t ≡ Ordering.Equal) ↔ (s ≡ t) }
{}

/// Each word says one thing as a literal: `0`, the literal whose word it is, a number beyond what a file may name, or nothing.
pub fn words_are_literals()
    ensures zero { (w : List ℕ) → (literal_word w ≡ LitWord.Zero) ↔ (w ≡ codes "0") }
    ensures value { (w : List ℕ) (l : ℕ)
        → (literal_word w ≡ LitWord.Value l) ↔ (IsLiteral l × (w ≡ literal_text l)) }
    ensures out_of_range { (w : List ℕ) → (literal_word w ≡ LitWord.OutOfRange)
        ↔ (IsNumeral (without_minus w) × (length w ≤ 32) × (max_var < digits_value 10 (without_minus w))) }
    ensures not_number { (w : List ℕ) → (literal_word w ≡ LitWord.NotNumber)
        ↔ ((w ≢ codes "0") × (IsNumeral (without_minus w) → 32 < length w)) }
{}

/// Each word says one thing as an id: `0`, the id whose word it is, a number beyond the limit, or nothing.
pub fn words_are_ids()
    ensures zero { (w : List ℕ) → (id_word w ≡ IdWord.Zero) ↔ (w ≡ codes "0") }
    ensures value { (w : List ℕ) (n : ℕ)
        → (id_word w ≡ IdWord.Value n) ↔ ((0 < n) × (n < 2 ^ 63) × (w ≡ decimal n)) }
    ensures out_of_range { (w : List ℕ) → (id_word w ≡ IdWord.OutOfRange)
        ↔ (IsNumeral w × (length w ≤ 32) × (2 ^ 63 ≤ digits_value 10 w)) }
    ensures not_number { (w : List ℕ) → (id_word w ≡ IdWord.NotNumber)
        ↔ ((w ≢ codes "0") × (IsNumeral w → 32 < length w)) }
{}

/// A numbering of n variables is a bijection between these and the numbers from 1 to n, and n is within the limit.
pub fn numbers_are_a_bijection()
    ensures known { (vars : List ℕ) (v : ℕ) → IsTrue (has vars v) ↔ (number_of vars v ≤ length vars) }
    ensures missing { (vars : List ℕ) (v : ℕ) → not (has vars v) ≡ nat_eq (number_of vars v) (length vars + 1) }
    ensures variable { (vars : List ℕ) (v : ℕ) → IsTrue (has vars v) → var_of vars (number_of vars v) ≡ v }
    ensures number { (vars : List ℕ) (n : ℕ) → IsNumbering vars → 0 < n → n ≤ length vars
        → number_of vars (var_of vars n) ≡ n }
    ensures injective { (vars : List ℕ) (v w : ℕ) → IsTrue (has vars v) → number_of vars v ≡ number_of vars w → v ≡ w }
    ensures limit { (vars : List ℕ) → IsNumbering vars → length vars ≤ max_var }
{}

/// A variable that comes gets the number that it was to get, and the others keep theirs.
pub fn numbers_stay()
    ensures numbering { (vars : List ℕ) (v : ℕ) → IsNumbering vars → IsVariable v → IsNumbering (with_var vars v) }
    ensures known { (vars : List ℕ) (v w : ℕ) → has (with_var vars v) w ≡ (has vars w || nat_eq w v) }
    ensures number { (vars : List ℕ) (v : ℕ) → number_of (with_var vars v) v ≡ number_of vars v }
    ensures others { (vars more : List ℕ) (w : ℕ) → IsTrue (has vars w) → number_of (vars ++ more) w ≡ number_of vars w }
    ensures front { (vars : List ℕ) (v : ℕ) → (more : List ℕ) × (with_var vars v ≡ vars ++ more) }
{}

/// The translation of a literal has its variable's number as the variable, and its sign. Over the literals of a numbering's
/// variables it is a bijection that keeps negation.
pub fn translated_literals_are_literals()
    ensures variable { (vars : List ℕ) (l : ℕ) → var (dense_lit vars l) ≡ number_of vars (var l) }
    ensures sign { (vars : List ℕ) (l : ℕ) → positive (dense_lit vars l) ≡ positive l }
    ensures negation { (vars : List ℕ) (l : ℕ) → dense_lit vars (neg l) ≡ neg (dense_lit vars l) }
    ensures injective { (vars : List ℕ) (l m : ℕ) → IsTrue (is_known vars l) → dense_lit vars l ≡ dense_lit vars m → l ≡ m }
    ensures back { (vars : List ℕ) (l : ℕ) → IsTrue (is_known vars l) → file_lit vars (dense_lit vars l) ≡ l }
    ensures there { (vars : List ℕ) (l : ℕ) → IsNumbering vars → var l ≤ length vars → dense_lit vars (file_lit vars l) ≡ l }
    ensures known { (vars : List ℕ) (l : ℕ) → IsNumbering vars → var l ≤ length vars → IsTrue (is_known vars (file_lit vars l)) }
    ensures limit { (vars : List ℕ) (l : ℕ) → IsNumbering vars → IsTrue (is_known vars l) → IsLiteral (dense_lit vars l) }
{}

/// A list of literals whose variables have numbers and its translation are alike as sets: in members, parts and opposite
/// literals. Its translation tells it, and stays when more variables come. The translation of an ascending list needn't
/// ascend.
pub fn translated_lists_keep_their_sets()
    ensures member { (vars c : List ℕ) (l : ℕ) → IsTrue (are_known vars c) → has (dense_lits vars c) (dense_lit vars l) ≡ has c l }
    ensures no_others { (vars c : List ℕ) (d : ℕ) → IsTrue (has (dense_lits vars c) d)
        → (l : ℕ) × IsTrue (has c l) × (d ≡ dense_lit vars l) }
    ensures part { (vars c d : List ℕ) → IsTrue (are_known vars d) → is_part (dense_lits vars c) (dense_lits vars d) ≡ is_part c d }
    ensures same { (vars c d : List ℕ) → IsTrue (are_known vars d) → same_set (dense_lits vars c) (dense_lits vars d) ≡ same_set c d }
    ensures tautology { (vars c : List ℕ) → IsTrue (are_known vars c) → is_tautology (dense_lits vars c) ≡ is_tautology c }
    ensures set { (vars c : List ℕ) → set_of (dense_lits vars (set_of c)) ≡ set_of (dense_lits vars c) }
    ensures back { (vars c : List ℕ) → IsTrue (are_known vars c) → file_lits vars (dense_lits vars c) ≡ c }
    ensures stays { (vars more c : List ℕ) → IsTrue (are_known vars c) → dense_lits (vars ++ more) c ≡ dense_lits vars c }
{}

/// After literals came one after another, just their variables have numbers besides those that had, and these kept theirs.
/// A list that is translated as it comes is translated literal by literal.
pub fn literals_that_came_are_known()
    ensures known { (vars c : List ℕ) → IsTrue (are_known (with_lits vars c) c) }
    ensures no_others { (vars c : List ℕ) (v : ℕ) → IsTrue (has (with_lits vars c) v)
        → IsTrue (has vars v) ⊎ ((l : ℕ) × IsTrue (has c l) × (v ≡ var l)) }
    ensures front { (vars c : List ℕ) → (more : List ℕ) × (with_lits vars c ≡ vars ++ more) }
    ensures numbering { (vars c : List ℕ) → IsNumbering vars → ((l : ℕ) → IsTrue (has c l) → IsLiteral l)
        → IsNumbering (with_lits vars c) }
    ensures together { (vars c d : List ℕ) → with_lits vars (c ++ d) ≡ with_lits (with_lits vars c) d }
    ensures translated { (vars c : List ℕ) (l : ℕ)
        → numbered_lits vars (c ++ l ∷ []) ≡ numbered_lits vars c ++ dense_lit (with_lits vars c) l ∷ [] }
{}
