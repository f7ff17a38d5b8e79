//! Worked runs over inputs and sinks of all kinds: what is read and written, and what a fault makes of a run. There is
//! nothing here but tests.
#![tactic(auto)]

#[cfg(test)]
mod changing;
#[cfg(test)]
mod faults;
#[cfg(test)]
mod outside;
