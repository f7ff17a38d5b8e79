//! Worked rows and events of several views of one text. There is nothing here but tests.
#![tactic(auto)]

#[cfg(test)]
mod calls;
#[cfg(test)]
mod changes;
#[cfg(test)]
mod settling;
#[cfg(test)]
mod splits;
