//! Jobs of a display on texts that are known: which lines a result finds, whatever happened since its job was sent.
//! There is nothing here but tests.
#![tactic(auto)]

#[cfg(test)]
mod callers;
#[cfg(test)]
mod displays;
#[cfg(test)]
mod histories;
#[cfg(test)]
mod landings;
#[cfg(test)]
mod nested;
#[cfg(test)]
mod play;
