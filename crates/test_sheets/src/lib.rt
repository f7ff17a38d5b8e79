//! One history played on displays over plain lists and over the maps: what is seen of both is the same. There is nothing here
//! but tests.
#![tactic(auto)]

#[cfg(test)]
mod alike;
#[cfg(test)]
mod draws;
#[cfg(test)]
mod limits;
#[cfg(test)]
mod play;
#[cfg(test)]
mod seen;
