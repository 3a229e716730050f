// The program `idrup`: runs the command that its words name over the real files and the standard output.
#![tactic(auto)]

use idrup_cli::{places, run};
use outside::{FileSink, FileSource, StdoutSink};
use std::alloc::AllocError;
use std::process::ExitCode;
use std::rt::Env;
use std::{env, io};

const NO_MEMORY: u8 = 5;

// The words after the program's name; none where they aren't all text, and none has no plan.
fn command_words<R: Env + AllocGlobal>(rt: &R) -> Result<Vec<String>, AllocError> {
    let mut words = Vec::new(rt.alloc());
    match env::args(rt) {
        Ok(args) => {
            for word in args.skip(1) {
                words.push(word)?;
            }
            Ok(words)
        }
        Err(error) if error.kind() == io::ErrorKind::OutOfMemory => Err(AllocError),
        Err(_) => Ok(words),
    }
}

// The word that names a file, where the command has this file.
fn file_name(words: &[String], place: Option<usize>) -> Option<&str> {
    let word = words.get(place?)?;
    Some(word.as_str())
}

fn main(rt: HostRuntime) -> ExitCode {
    let Ok(words) = command_words(&rt) else {
        return ExitCode::from(NO_MEMORY);
    };
    let words = words.as_slice();
    let mut names = [None; 4];
    if let Some(places) = places(words) {
        names = [
            file_name(words, places.first),
            file_name(words, places.second),
            file_name(words, places.out),
            file_name(words, places.proof),
        ];
    }
    let mut first = FileSource::new(&rt, names[0]);
    let mut second = FileSource::new(&rt, names[1]);
    let mut out = FileSink::new(rt.alloc(), &rt, names[2]);
    let mut proof = FileSink::new(rt.alloc(), &rt, names[3]);
    let mut report = StdoutSink::new(&rt);
    ExitCode::from(run(
        rt.alloc(),
        words,
        &mut first,
        &mut second,
        &mut out,
        &mut proof,
        &mut report,
    ))
}
