// Images and kept answers as words: checked, and written from what stands.
#![tactic(auto)]

mod answers;
mod checking;
mod names;
mod source;
mod writer;
mod writing;

pub use answers::recall;
pub use checking::check_image;
pub use source::ImageSource;
pub use writing::write_image;
