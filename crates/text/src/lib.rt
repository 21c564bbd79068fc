// Bytes to words, and words and numbers to lines of text. Nothing here can fail: what has no room is not written, and the answer says so.
#![tactic(auto)]

pub mod input;
pub mod number;
pub mod output;
pub mod raw;
pub mod window;
