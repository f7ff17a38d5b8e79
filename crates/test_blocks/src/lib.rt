//! Worked rows of the block map: which rows are between those of lines, on texts that are known and on texts that
//! random changes have made. There is nothing here but tests.
#![tactic(auto)]

#[cfg(test)]
mod histories;
#[cfg(test)]
mod laid;
#[cfg(test)]
mod landings;
#[cfg(test)]
mod moves;
#[cfg(test)]
mod plain;
#[cfg(test)]
mod read;
#[cfg(test)]
mod refusals;
#[cfg(test)]
mod rows;
#[cfg(test)]
mod script;
#[cfg(test)]
mod seen;
#[cfg(test)]
mod shares;
