//! Sessions: folders with a text, a script and the output that the rules give for them.
use std::alloc::{AllocError, Global};
use std::fs::Files;
use std::{fs, io};

/// The numbers of workers that a session is played with.
const WORKERS: [&str; 3] = ["1", "2", "8"];

/// A session: the words of each of its plays, and its output.
#[derive(Drop)]
pub struct Session {
    pub plays: Vec<Vec<String>>,
    output: String,
}

impl Session {
    /// The session in this folder.
    pub fn read<R: AllocGlobal + Files>(rt: &R, folder: &str) -> io::Result<Session> {
        let alloc = rt.alloc();
        let output = fs::read_to_string(rt, format!(in alloc; "{folder}/output")?.as_str())?;
        let mut plays = Vec::new(alloc);
        for workers in WORKERS {
            plays.push(words(alloc, folder, workers)?)?;
        }
        Ok(Session { plays, output })
    }

    /// Whether a play wrote just the output, ended with the status that goes with it, and said nothing.
    pub fn is_played(&self, status: u8, written: &[u8], said: &[u8]) -> bool {
        written == self.output.as_bytes() && status == self.status() && said.is_empty()
    }

    /// The status that goes with the output: 1 where it has the line of a refusal.
    fn status(&self) -> u8 {
        u8::from(self.output.lines().any(|line| line.starts_with("! ")))
    }
}

/// The words that play the session in this folder with so many workers.
fn words(alloc: Global, folder: &str, workers: &str) -> Result<Vec<String>, AllocError> {
    let mut words = Vec::new(alloc);
    for file in ["text", "script"] {
        words.push(format!(in alloc; "{folder}/{file}")?)?;
    }
    for word in ["--workers", workers] {
        words.push(word.to_string(alloc)?)?;
    }
    Ok(words)
}
