//! Worked rows of the inlay map: what is shown where on texts with inlays that are known, and on texts that random
//! changes have made. There is nothing here but tests.
#![tactic(auto)]

#[cfg(test)]
mod breaks;
#[cfg(test)]
mod callers;
#[cfg(test)]
mod histories;
#[cfg(test)]
mod laid;
#[cfg(test)]
mod moves;
#[cfg(test)]
mod refusals;
#[cfg(test)]
mod rows;
#[cfg(test)]
mod script;
