//! Worked rows of the tab map and the wrap map: which lines wait, what is where once they are wrapped, and what edits
//! leave of it, on texts that are known and on texts that random changes have made. There is nothing here but tests.
#![tactic(auto)]

#[cfg(test)]
mod histories;
#[cfg(test)]
mod items;
#[cfg(test)]
mod landings;
#[cfg(test)]
mod most_lines;
#[cfg(test)]
mod plain;
#[cfg(test)]
mod read;
#[cfg(test)]
mod rows;
#[cfg(test)]
mod script;
#[cfg(test)]
mod shares;
#[cfg(test)]
mod tabs;
