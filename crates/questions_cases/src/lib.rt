// Questions with known answers, asked at yes and no.
#![tactic(auto)]

mod few;
#[cfg(test)]
mod tests;
