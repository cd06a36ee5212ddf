// Asking a question of a closed catalogue, and fitting a kind to a question, over any sort of code.
#![tactic(auto)]

mod answer;
mod checks;
mod decode;
mod fitting;
mod naming;
mod rows;

pub use answer::ask;
pub use fitting::fit;
