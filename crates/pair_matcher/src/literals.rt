// What both sides do alike: lists of literals that take the place of others, rules over numbers that are read back, and the rule at
// a proof's end.

ghost use Rattle.std.specs.Prelude.{◌≡◌, map, OnOk, OnErr, option_map};
ghost use Rattle.lits.specs.Literal.{neg};
ghost use Rattle.session_rules.specs.History.{broken_unless};
ghost use Rattle.session_rules.specs.Pair.{is_idle};
ghost use Rattle.pair_matcher.specs.Sides.{first_rule};
ghost use Rattle.numbering_laws.specs.Dense.{file_rule, shown_lit};

use lits::{Dense, Lit};
use session_rules::{Phase, Rule};
use std::alloc::AllocError;

/// Puts the negations of literals in the place of a vector's items.
pub fn negate(items: &mut Vec<Lit>, lits: &[Lit]) -> Result<(), AllocError>
    ensures { OnOk result (items.new.items ≡ map neg lits.now) }
{
    items.clear();
    items.reserve(lits.len())?;
    for l in lits {
        items.push(l.neg())?;
    }
    Ok(())
}

/// Puts literals in the place of a vector's. An error leaves it as it was.
pub fn refill(items: &mut Vec<Lit>, lits: &[Lit]) -> Result<(), AllocError>
    ensures ok { OnOk result (items.new.items ≡ lits.now) }
    ensures err { OnErr result (items.new.items ≡ items.old.items) }
{
    items.reserve(lits.len().saturating_sub(items.len()))?;
    items.clear();
    items.extend_from_slice(lits)
}

/// A literal over numbers as the file has it. One beyond the numbers stays.
fn shown_lit(lit: Lit, dense: &Dense) -> Lit
    ensures { result ≡ shown_lit dense.now lit }
{
    if lit.var() <= dense.count() {
        dense.file_lit(lit)
    } else {
        lit
    }
}

/// A rule over numbers with its literal, where it has one, as the file has it.
pub fn shown_rule(rule: Rule, dense: &Dense) -> Rule
    ensures { result ≡ file_rule dense.now rule }
{
    match rule {
        Rule::ModelClash(lit) => Rule::ModelClash(shown_lit(lit, dense)),
        Rule::ModelAssumption(lit) => Rule::ModelAssumption(shown_lit(lit, dense)),
        Rule::CoreStranger(lit) => Rule::CoreStranger(shown_lit(lit, dense)),
        Rule::ModelPart(lit) => Rule::ModelPart(shown_lit(lit, dense)),
        Rule::CorePart(lit) => Rule::CorePart(shown_lit(lit, dense)),
        Rule::CoreClaim(lit) => Rule::CoreClaim(shown_lit(lit, dense)),
        Rule::FailedPart(lit) => Rule::FailedPart(shown_lit(lit, dense)),
        other => other,
    }
}

/// A rule over numbers, if there is one, with its literal as the file has it.
pub fn shown_answer(answer: Option<Rule>, dense: &Dense) -> Option<Rule>
    ensures { result ≡ option_map (file_rule dense.now) answer }
{
    match answer {
        Some(rule) => Some(shown_rule(rule, dense)),
        None => None,
    }
}

/// Unfinished where a query is open.
pub fn end_rule(phase: Phase) -> Option<Rule>
    ensures { result ≡ first_rule (broken_unless (is_idle phase) Rule.Unfinished) }
{
    match phase {
        Phase::Idle => None,
        Phase::Asked | Phase::Told(_) => Some(Rule::Unfinished),
    }
}
