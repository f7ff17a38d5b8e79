//! Worked runs of the program: what scripts write on texts that are known. Besides words of the command line and their
//! readings. There is nothing here but tests.
#![tactic(auto)]

#[cfg(test)]
mod callers;
#[cfg(test)]
mod carets;
#[cfg(test)]
mod headers;
#[cfg(test)]
mod lawful_runs;
#[cfg(test)]
mod made;
#[cfg(test)]
mod refusals;
#[cfg(test)]
mod rows;
#[cfg(test)]
mod sessions;
#[cfg(test)]
mod spots;
#[cfg(test)]
mod words;
