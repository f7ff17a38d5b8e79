//! Worked lines: their elements, cuts and row texts, and jobs on them, done here and by workers in threads of their own.
//! There is nothing here but tests.
#![tactic(auto)]

#[cfg(test)]
mod alike;
#[cfg(test)]
mod crews;
#[cfg(test)]
mod lines;
#[cfg(test)]
mod wide;
