//! The pieces of rows and the changed rows of records that are known. There is nothing here but tests.
#![tactic(auto)]

#[cfg(test)]
mod callers;
#[cfg(test)]
mod displays;
#[cfg(test)]
mod views;
