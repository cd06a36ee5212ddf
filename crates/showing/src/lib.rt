// What the case programs share: setting a catalogue up, the calls that change it, and how they show what a call gave.
#![tactic(auto)]

mod outcomes;
mod steps;

pub use outcomes::{show_done, show_verdict, show_words};
pub use steps::{Step, set_up};
