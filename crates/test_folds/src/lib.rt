//! Worked rows of the fold map: what is shown where of texts with folds that are known, and of texts that random
//! changes have made. There is nothing here but tests.
#![tactic(auto)]

#[cfg(test)]
mod checks;
#[cfg(test)]
mod histories;
#[cfg(test)]
mod laid;
#[cfg(test)]
mod moves;
#[cfg(test)]
mod plain;
#[cfg(test)]
mod refusals;
#[cfg(test)]
mod rows;
#[cfg(test)]
mod script;
