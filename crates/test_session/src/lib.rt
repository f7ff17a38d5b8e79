//! Sessions of known texts, from their opening to their answers. There is nothing here but tests.
#![tactic(auto)]

#[cfg(test)]
mod changed;
#[cfg(test)]
mod sessions;
