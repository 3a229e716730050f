// The line that tells an ending.
ghost use Rattle.std.specs.Prelude.{◌≡◌, ◌+◌, ◌<◌, ◌≤◌, ◌++◌, length};
ghost use Rattle.session_rules.specs.declared.Verdict.TheVariants.{Accepted, Refused};
ghost use Rattle.idrup_cli.specs.Report.{line_of, verdict_line, side_name, rule_name, rule_detail, spaced};

use crate::ending::Ending;
use crate::text::{Line, SIZE};
use session_rules::{Rule, Side, Verdict};

const USAGE: &[u8] =
    b"usage: idrup check [--lidrup] ICNF PROOF, solve [--lidrup] SCRIPT ICNF PROOF, convert IDRUP LIDRUP, demo N ICNF PROOF\n";

// How many bytes the line of a verdict has at most, and how many of them the detail of its rule with the space before it.
const LONGEST: usize = 79;

const LONGEST_DETAIL: usize = 22;

fn name_of_side(side: Side) -> &'static [u8]
    ensures name { result.now ≡ side_name side }
    ensures short { length result.now ≤ 11 }
{
    match side {
        Side::Interaction => b"interaction",
        Side::Proof => b"proof",
    }
}

fn name_of_rule(rule: &Rule) -> &'static [u8]
    ensures name { result.now ≡ rule_name rule.now }
    ensures short { length result.now ≤ 15 }
{
    match rule {
        Rule::Header => b"Header",
        Rule::Letter => b"Letter",
        Rule::Number => b"Number",
        Rule::Range => b"Range",
        Rule::Unclosed => b"Unclosed",
        Rule::Excess => b"Excess",
        Rule::Word => b"Word",
        Rule::Length => b"Length",
        Rule::Order => b"Order",
        Rule::IdTaken => b"IdTaken",
        Rule::NotActive(_) => b"NotActive",
        Rule::NotWeakened(_) => b"NotWeakened",
        Rule::Lemma => b"Lemma",
        Rule::Hint(_) => b"Hint",
        Rule::ModelClash(_) => b"ModelClash",
        Rule::ModelAssumption(_) => b"ModelAssumption",
        Rule::ModelInput(_) => b"ModelInput",
        Rule::CoreStranger(_) => b"CoreStranger",
        Rule::CoreOpen => b"CoreOpen",
        Rule::Ended => b"Ended",
        Rule::Kind => b"Kind",
        Rule::Content => b"Content",
        Rule::Status => b"Status",
        Rule::ModelPart(_) => b"ModelPart",
        Rule::CorePart(_) => b"CorePart",
        Rule::CoreClaim(_) => b"CoreClaim",
        Rule::Unfinished => b"Unfinished",
        Rule::Surplus => b"Surplus",
        Rule::FailedPart(_) => b"FailedPart",
    }
}

// The detail of a rule behind a space, where it has one.
fn push_detail(line: &mut Line, rule: &Rule)
    requires { length line.old + LONGEST_DETAIL ≤ SIZE }
    ensures bytes { line.new ≡ line.old ++ spaced (rule_detail rule.now) }
    ensures size { length line.new ≤ length line.old + LONGEST_DETAIL }
{
    match rule {
        Rule::NotActive(n) | Rule::NotWeakened(n) | Rule::Hint(n) | Rule::ModelInput(n) => {
            line.push(b" ");
            line.push_number(*n);
        }
        Rule::ModelClash(l)
        | Rule::ModelAssumption(l)
        | Rule::CoreStranger(l)
        | Rule::ModelPart(l)
        | Rule::CorePart(l)
        | Rule::CoreClaim(l)
        | Rule::FailedPart(l) => {
            line.push(b" ");
            line.push_literal(*l);
        }
        _ => {}
    }
}

fn push_accepted(line: &mut Line, queries: u64)
    requires { length line.old + LONGEST ≤ SIZE }
    ensures bytes { line.new ≡ line.old ++ verdict_line (Accepted queries) }
    ensures some { 0 < length line.new }
{
    line.push(b"accepted ");
    line.push_number(queries);
    line.push(b" queries\n");
}

fn push_refused(line: &mut Line, side: Side, number: u64, rule: Rule)
    requires { length line.old + LONGEST ≤ SIZE }
    ensures bytes { line.new ≡ line.old ++ verdict_line (Refused side number rule) }
    ensures some { 0 < length line.new }
{
    line.push(b"refused ");
    line.push(name_of_side(side));
    line.push(b" ");
    line.push_number(number);
    line.push(b" ");
    line.push(name_of_rule(&rule));
    push_detail(line, &rule);
    line.push(b"\n");
}

fn push_verdict(line: &mut Line, verdict: Verdict)
    requires { length line.old + LONGEST ≤ SIZE }
    ensures bytes { line.new ≡ line.old ++ verdict_line verdict }
    ensures some { 0 < length line.new }
{
    match verdict {
        Verdict::Accepted { queries } => push_accepted(line, queries),
        Verdict::Refused {
            side,
            line: number,
            rule,
        } => push_refused(line, side, number, rule),
    }
}

// The whole line of an ending, with its line feed.
#[tactic(auto, unfolding(crate::specs::Report::line_of))]
pub(crate) fn push_ending(line: &mut Line, ending: &Ending)
    requires { length line.old ≡ 0 }
    ensures bytes { line.new ≡ line.old ++ line_of ending.now }
    ensures some { 0 < length line.new }
{
    match ending {
        Ending::Checked(verdict) => push_verdict(line, *verdict),
        Ending::Usage => line.push(USAGE),
        Ending::ReadInteraction => line.push(b"read fault interaction\n"),
        Ending::ReadProof => line.push(b"read fault proof\n"),
        Ending::NoMemory => line.push(b"no memory\n"),
    }
}
