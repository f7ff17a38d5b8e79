//! Worked rows of the crates that the maps depend on: what each call returns on values that are known. There is nothing
//! here but tests.
#![tactic(auto)]

#[cfg(test)]
mod callers;
#[cfg(test)]
mod layers;
#[cfg(test)]
mod lines;
#[cfg(test)]
mod marks;
#[cfg(test)]
mod nodes;
#[cfg(test)]
mod patches;
#[cfg(test)]
mod ranges;
#[cfg(test)]
mod rope_looks;
#[cfg(test)]
mod ropes;
#[cfg(test)]
mod trees;
#[cfg(test)]
mod weights;
