//! Worked rows of carets and selections: where motions lead, and what selections cover, on texts that are known. There
//! is nothing here but tests.
#![tactic(auto)]

#[cfg(test)]
mod carets;
#[cfg(test)]
mod displays;
#[cfg(test)]
mod plain;
#[cfg(test)]
mod selections;
#[cfg(test)]
mod walk;
