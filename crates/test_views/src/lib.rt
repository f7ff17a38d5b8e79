//! Scripts for several views: their lines, what they write, and what each view would write alone. There is nothing here
//! but tests.
#![tactic(auto)]

#[cfg(test)]
mod alone;
#[cfg(test)]
mod keys;
#[cfg(test)]
mod limits;
#[cfg(test)]
mod lines;
#[cfg(test)]
mod plays;
#[cfg(test)]
mod sessions;
#[cfg(test)]
mod texts;
