//! The program `levee`: it hands its words, its standard input and its standard output to the top call,
//! and ends with the status that the call answers.
#![tactic(auto)]

use levee_top::{Status, levee};
use lv_base::{StdSink, StdSource};
use std::env::{self, Env};
use std::io::{self, ErrorKind};
use std::process::ExitCode;

/// The words behind the program's name.
fn words(rt: &(impl Env + AllocGlobal)) -> io::Result<Vec<String>> {
    let mut words = Vec::new(rt.alloc());
    for word in env::args(rt)?.skip(1) {
        words.push(word)?;
    }
    Ok(words)
}

fn main(rt: HostRuntime) -> ExitCode {
    let words = match words(&rt) {
        Ok(words) => words,
        Err(e) if e.kind() == ErrorKind::OutOfMemory => {
            return ExitCode::from(Status::Memory.code());
        }
        // A word that is no text is no word of a command, and neither is none.
        Err(_) => Vec::new(rt.alloc()),
    };
    let mut source = StdSource::new(rt.stdin());
    let mut sink = StdSink::new(rt.stdout());
    ExitCode::from(levee(rt.alloc(), &words, &mut source, &mut sink).code())
}
