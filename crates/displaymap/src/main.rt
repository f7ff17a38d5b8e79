//! The program `displaymap`: it runs a script on a text and prints the rows that the script asks for.
//!
//! All that it does is `program` of `split_cli`: `main` gives that the words, the real files, the standard output and
//! standard error, and hands its status to the system.
#![tactic(auto)]

use display_cli::{FileInputs, StreamSink, give_up};
use split_cli::program;
use std::env::Env;
use std::process::ExitCode;
use std::{env, io};
use wrap_workers::FreeGate;

/// The words after the program's name.
fn given_words(rt: &(impl Env + AllocGlobal)) -> io::Result<Vec<String>> {
    Ok(env::args(rt)?.skip(1).collect(rt.alloc())?)
}

fn main(rt: HostRuntime) -> ExitCode {
    let mut err = StreamSink::new(rt.stderr());
    let words = match given_words(&rt) {
        Ok(words) => words,
        Err(error) => return ExitCode::from(give_up(error.kind(), &mut err)),
    };
    let mut inputs = FileInputs::new(&rt);
    let mut out = StreamSink::new(rt.stdout());
    ExitCode::from(program(
        &rt,
        rt.alloc(),
        words.as_slice(),
        &mut inputs,
        &mut out,
        &mut err,
        &FreeGate,
    ))
}
