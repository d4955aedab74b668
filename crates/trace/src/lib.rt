// Calls and answers as lines of text, in the keys of document 02, Req 01. Lines are read into values, and answers are shown.
// Nothing here reads or writes a file.
#![tactic(auto)]

mod fields;
mod lines;
mod text;
mod writes;

pub use lines::{Line, read_line};
pub use text::{AnswerText, Counters, ReplyText, refused};
pub use writes::fill;
