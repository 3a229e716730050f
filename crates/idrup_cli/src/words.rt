// The words of the command line.
ghost use Rattle.std.specs.Prelude.{◌≡◌, map, string_bytes};
ghost use Rattle.idrup_cli.specs.Plan.{plan, check_plan, check_places, is_name};

use crate::{Command, Places};
use session_rules::Form;

/// What the words after the program's name ask for, or nothing where they have no plan.
pub fn places(words: &[String]) -> Option<Places>
    ensures { result ≡ plan (map string_bytes words.now) }
{
    match words {
        [command, rest @ ..] if command.as_str() == "check" => places_of_check(rest),
        _ => None,
    }
}

// What the words behind `check` ask for.
fn places_of_check(words: &[String]) -> Option<Places>
    ensures { result ≡ check_plan (map string_bytes words.now) }
{
    match words {
        [first, second] => {
            let has_names = is_file_name(first.as_str()) && is_file_name(second.as_str());
            if has_names {
                Some(check_of(Form::Idrup, 1, 2))
            } else {
                None
            }
        }
        [option, first, second] => {
            let has_names = option.as_str() == "--lidrup"
                && is_file_name(first.as_str())
                && is_file_name(second.as_str());
            if has_names {
                Some(check_of(Form::Lidrup, 2, 3))
            } else {
                None
            }
        }
        _ => None,
    }
}

// A check in this form, with the interaction and the proof at these places.
fn check_of(form: Form, first: usize, second: usize) -> Places
    ensures { result ≡ check_places form first second }
{
    Places {
        command: Command::Check,
        form,
        first: Some(first),
        second: Some(second),
        out: None,
        proof: None,
        size: 0,
    }
}

// Whether a word may name a file: it isn't empty and doesn't begin with a dash.
fn is_file_name(word: &str) -> bool
    ensures { result ≡ is_name word.now }
{
    match word.as_bytes() {
        [] => false,
        [first, ..] => *first != b'-',
    }
}
