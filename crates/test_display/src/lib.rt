//! Worked rows of the display: what it and its views return on texts and changes that are known, with no job out. There
//! is nothing here but tests.
#![tactic(auto)]

#[cfg(test)]
mod answers;
#[cfg(test)]
mod callers;
#[cfg(test)]
mod lawful;
#[cfg(test)]
mod plain;
#[cfg(test)]
mod prepared;
#[cfg(test)]
mod starts;
#[cfg(test)]
mod views;
#[cfg(test)]
mod work;
