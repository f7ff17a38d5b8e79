//! Undo and redo of edits on displays of known texts. There is nothing here but tests.
#![tactic(auto)]

#[cfg(test)]
mod editing;
#[cfg(test)]
mod inverses;
#[cfg(test)]
mod lines;
