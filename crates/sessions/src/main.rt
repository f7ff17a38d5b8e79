//! Plays the sessions of a folder, and prints of each whether the program writes what its output says. It ends with the status 1
//! where one doesn't.
//!
//! The word behind the program's name is the folder that has the sessions, each in a folder of its own. Without it they are those
//! of the folder that the program is run in.
#![tactic(auto)]

mod session;

use crate::session::Session;
use display_cli::{FileInputs, ListSink};
use split_cli::program;
use std::env::Env;
use std::fs::Files;
use std::process::ExitCode;
use std::{env, fs, io};
use wrap_workers::FreeGate;

/// The folder that the words name.
fn given_folder(rt: &(impl Env + AllocGlobal)) -> io::Result<String> {
    match env::args(rt)?.nth(1) {
        Some(folder) => Ok(folder),
        None => Ok(".".to_string(rt.alloc())?),
    }
}

/// The names of the folders in this one, in the order of their bytes.
fn session_names<R: AllocGlobal + Files + Clone + Drop>(
    rt: &R,
    folder: &str,
) -> io::Result<Vec<String>> {
    let mut names = Vec::new(rt.alloc());
    for entry in fs::read_dir(rt, folder)? {
        let entry = entry?;
        if entry.metadata()?.is_dir() {
            names.push(entry.file_name().to_string(rt.alloc())?)?;
        }
    }
    names.sort()?;
    Ok(names)
}

// The plays are here and not in a function of their own, since files that are sent to a thread have to be the runtime's own.
fn main(rt: HostRuntime) -> io::Result<ExitCode> {
    let alloc = rt.alloc();
    let folder = given_folder(&rt)?;
    let mut ending = ExitCode::SUCCESS;
    for name in &session_names(&rt, folder.as_str())? {
        let session = format!(in alloc; "{folder}/{name}")?;
        let session = Session::read(&rt, session.as_str())?;
        let mut is_as_written = true;
        for words in &session.plays {
            let mut inputs = FileInputs::new(&rt);
            let mut out = ListSink::new(alloc, Vec::new(alloc));
            let mut err = ListSink::new(alloc, Vec::new(alloc));
            let words = words.as_slice();
            let status = program(
                &rt,
                alloc,
                words,
                &mut inputs,
                &mut out,
                &mut err,
                &FreeGate,
            );
            is_as_written = is_as_written && session.is_played(status, out.taken(), err.taken());
        }
        if is_as_written {
            println!(rt; "{name} as written")?;
        } else {
            println!(rt; "{name} otherwise")?;
            ending = ExitCode::FAILURE;
        }
    }
    Ok(ending)
}
