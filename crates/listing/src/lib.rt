// A table as text, and the text read back: one line per word, a section's name and all fields of the word in decimal.
#![tactic(auto)]

pub mod forms;
pub mod reading;
pub mod writing;
