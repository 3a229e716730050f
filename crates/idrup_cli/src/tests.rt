// The plans of command lines, and the text and status of each ending.
use crate::telling::tell;
use crate::{Command, Ending, Places, places, run};
use lits::Lit;
use outside::{Failed, MemorySink, MemorySource, Source};
use session_rules::{Form, Rule, Side, Verdict};
use std::alloc::{AllocError, Global};
use std::process::Abort;
use std::test::Fail;

const USAGE: &[u8] =
    b"usage: idrup check [--lidrup] ICNF PROOF, solve [--lidrup] SCRIPT ICNF PROOF, convert IDRUP LIDRUP, demo N ICNF PROOF\n";

// The words of a text, parted by spaces; none of an empty text.
fn words_of(alloc: Global, text: &str) -> Result<Vec<String>, AllocError> {
    let mut words = Vec::new(alloc);
    if text.is_empty() {
        return Ok(words);
    }
    for word in text.split(' ') {
        words.push(String::from_str(alloc, word)?)?;
    }
    Ok(words)
}

// A source whose first read fails.
fn unreadable(alloc: Global) -> Result<MemorySource, AllocError> {
    Ok(MemorySource::new(Vec::new(alloc), vec![in alloc; 1]?))
}

#[test]
fn words_without_a_plan_get_the_usage(rt: HostRuntime) -> Result<(), Fail> {
    let alloc = rt.alloc();
    for text in [
        "",
        "check",
        "check a",
        "check a -b",
        "check -a b",
        "check  b",
        "check a b c",
        "check --lidrup a",
        "check --lidrup a -b",
        "check --idrup a b",
        "check a --lidrup b",
        "--lidrup check a b",
        "Check a b",
        "solve s x x",
        "demo 3",
    ] {
        let words = words_of(alloc, text)?;
        assert_eq!(rt; places(&words), None, "{text}");
        let mut first = unreadable(alloc)?;
        let mut second = unreadable(alloc)?;
        let mut out = MemorySink::new(alloc, 7, Vec::new(alloc));
        let mut proof = MemorySink::new(alloc, 7, Vec::new(alloc));
        let mut report = MemorySink::new(alloc, 7, Vec::new(alloc));
        let status = run(
            alloc,
            &words,
            &mut first,
            &mut second,
            &mut out,
            &mut proof,
            &mut report,
        );
        assert_eq!(rt; status, 2, "{text}");
        assert_eq!(rt; report.bytes(), USAGE, "{text}");
        let mut buf = [0u8; 4];
        assert_eq!(rt; first.read(&mut buf), Err(Failed), "{text}");
        assert_eq!(rt; second.read(&mut buf), Err(Failed), "{text}");
    }
    Ok(())
}

#[test]
fn a_check_names_two_files(rt: HostRuntime) -> Result<(), Fail> {
    for (text, form, first) in [
        ("check a b", Form::Idrup, 1),
        ("check --lidrup a b", Form::Lidrup, 2),
    ] {
        let words = words_of(rt.alloc(), text)?;
        let due = Places {
            command: Command::Check,
            form,
            first: Some(first),
            second: Some(first + 1),
            out: None,
            proof: None,
            size: 0,
        };
        assert_eq!(rt; places(&words), Some(due), "{text}");
    }
    Ok(())
}

// The literal that a number is written for.
fn lit(rt: &impl Abort, n: i64) -> Lit {
    Lit::new(n).expect(rt, "a literal")
}

// GetsLine an ending to a report that takes 7 bytes at a time, and compares what it holds then.
fn assert_told(rt: &(impl Abort + AllocGlobal), ending: Ending, status: u8, line: &[u8]) {
    let mut report = MemorySink::new(rt.alloc(), 7, Vec::new(rt.alloc()));
    assert_eq!(rt; tell(&mut report, ending), status);
    assert_eq!(rt; report.bytes(), line);
}

#[test]
fn each_rule_has_its_text(rt: HostRuntime) {
    let texts = [
        (Rule::Header, "refused proof 1 Header\n"),
        (Rule::Letter, "refused proof 1 Letter\n"),
        (Rule::Number, "refused proof 1 Number\n"),
        (Rule::Range, "refused proof 1 Range\n"),
        (Rule::Unclosed, "refused proof 1 Unclosed\n"),
        (Rule::Excess, "refused proof 1 Excess\n"),
        (Rule::Word, "refused proof 1 Word\n"),
        (Rule::Length, "refused proof 1 Length\n"),
        (Rule::Order, "refused proof 1 Order\n"),
        (Rule::IdTaken, "refused proof 1 IdTaken\n"),
        (Rule::NotActive(1), "refused proof 1 NotActive 1\n"),
        (Rule::NotWeakened(20), "refused proof 1 NotWeakened 20\n"),
        (Rule::Lemma, "refused proof 1 Lemma\n"),
        (Rule::Hint(345), "refused proof 1 Hint 345\n"),
        (
            Rule::ModelClash(lit(&rt, 1)),
            "refused proof 1 ModelClash 1\n",
        ),
        (
            Rule::ModelAssumption(lit(&rt, -2)),
            "refused proof 1 ModelAssumption -2\n",
        ),
        (Rule::ModelInput(7), "refused proof 1 ModelInput 7\n"),
        (
            Rule::CoreStranger(lit(&rt, -10)),
            "refused proof 1 CoreStranger -10\n",
        ),
        (Rule::CoreOpen, "refused proof 1 CoreOpen\n"),
        (Rule::Ended, "refused proof 1 Ended\n"),
        (Rule::Kind, "refused proof 1 Kind\n"),
        (Rule::Content, "refused proof 1 Content\n"),
        (Rule::Status, "refused proof 1 Status\n"),
        (
            Rule::ModelPart(lit(&rt, 99)),
            "refused proof 1 ModelPart 99\n",
        ),
        (
            Rule::CorePart(lit(&rt, -99)),
            "refused proof 1 CorePart -99\n",
        ),
        (
            Rule::CoreClaim(lit(&rt, 100)),
            "refused proof 1 CoreClaim 100\n",
        ),
        (Rule::Unfinished, "refused proof 1 Unfinished\n"),
        (Rule::Surplus, "refused proof 1 Surplus\n"),
        (
            Rule::FailedPart(lit(&rt, -100)),
            "refused proof 1 FailedPart -100\n",
        ),
    ];
    for (rule, text) in texts {
        let verdict = Verdict::Refused {
            side: Side::Proof,
            line: 1,
            rule,
        };
        assert_told(&rt, Ending::Checked(verdict), 1, text.as_bytes());
    }
}

#[test]
fn each_ending_has_its_line(rt: HostRuntime) {
    let longest = Verdict::Refused {
        side: Side::Interaction,
        line: u64::MAX,
        rule: Rule::ModelAssumption(lit(&rt, -2_147_483_647)),
    };
    let most = Verdict::Accepted { queries: u64::MAX };
    let endings: [(Ending, u8, &[u8]); 7] = [
        (
            Ending::Checked(Verdict::Accepted { queries: 0 }),
            0,
            b"accepted 0 queries\n",
        ),
        (
            Ending::Checked(most),
            0,
            b"accepted 18446744073709551615 queries\n",
        ),
        (
            Ending::Checked(longest),
            1,
            b"refused interaction 18446744073709551615 ModelAssumption -2147483647\n",
        ),
        (Ending::Usage, 2, USAGE),
        (Ending::ReadInteraction, 3, b"read fault interaction\n"),
        (Ending::ReadProof, 3, b"read fault proof\n"),
        (Ending::NoMemory, 5, b"no memory\n"),
    ];
    for (ending, status, line) in endings {
        assert_told(&rt, ending, status, line);
    }
}

#[test]
fn a_verdict_that_cannot_be_told_gives_4(rt: HostRuntime) -> Result<(), Fail> {
    let alloc = rt.alloc();
    let accepted = Ending::Checked(Verdict::Accepted { queries: 2 });
    for (failing, line) in [
        (1, b"".as_slice()),
        (3, b"accepted 2 que"),
        (4, b"accepted 2 queries\n"),
    ] {
        let mut report = MemorySink::new(alloc, 7, vec![in alloc; failing]?);
        assert_eq!(rt; tell(&mut report, accepted), 4, "{failing}");
        assert_eq!(rt; report.bytes(), line, "{failing}");
    }
    let mut report = MemorySink::new(alloc, 7, vec![in alloc; 2]?);
    assert_eq!(rt; tell(&mut report, Ending::NoMemory), 5);
    assert_eq!(rt; report.bytes(), b"no memo".as_slice());
    Ok(())
}
