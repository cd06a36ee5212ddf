// Lists of calls on one finder: what each call says, and what stands after them.
#![tactic(auto)]

mod calls;
mod making;
mod memory;
mod reply;
mod runs;

pub use calls::Call;
pub use making::make;
pub use memory::{Lists, Memory, full_memory};
pub use reply::Reply;
pub use runs::follow;
