//! The rows that changes and landings of views replaced: of changes that are known, and of histories drawn at random. There
//! is nothing here but tests.
#![tactic(auto)]

#[cfg(test)]
mod displays;
#[cfg(test)]
mod draws;
#[cfg(test)]
mod histories;
#[cfg(test)]
mod looks;
#[cfg(test)]
mod worked;
