// Words of 32 bits, the serials in them, and how a call is refused. Knows nothing of catalogues.
#![tactic(auto)]

mod files;
mod refusal;
mod serial;
mod word;

pub use files::{DecodeFault, decode, encode};
pub use refusal::{
    AnswerFault, CatalogueFault, ClosingFault, CodeFault, Fault, ImageFault, ListFault, NamesFault,
    Part, QuestionFault, Refusal, SerialFault, need,
};
pub use serial::{MAX_SERIAL, check_serial};
pub use word::{LowBits, StackEffect, WordKind, WordRule, is_kind, low_bits, make_word, rule};
