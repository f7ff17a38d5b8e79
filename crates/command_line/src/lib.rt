//! The words of the program's command line: what they ask for, or that they have no reading.
#![tactic(auto)]

mod command;
pub mod laws;
mod limits;
mod plan;
mod read;
mod views;

pub use limits::{
    VIEWS_LEAST, VIEWS_MOST, WATCHERS_DEFAULT, WATCHERS_MOST, WORKERS_DEFAULT, WORKERS_LEAST,
    WORKERS_MOST,
};
pub use plan::Plan;
pub use read::read_words;
pub use views::{ViewPlan, asks_for_views, read_view_words};
