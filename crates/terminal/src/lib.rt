// The fields of the line protocol: what a line's fields are, and numbers and words as fields.
#![tactic(auto)]

mod decimal;
mod fields;
mod lists;
mod numeral;
mod word;

pub use decimal::{parse_decimal, write_decimal};
pub use fields::Fields;
pub use lists::{FieldFault, parse_words, write_words};
pub use word::{parse_word, write_word};
