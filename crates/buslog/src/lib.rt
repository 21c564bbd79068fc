// Bus logs of the common Linux CAN tools, turned into event words: document 02, Q-12. The rulebook's `BusLog` says how a line is spelt and what it gives.
#![tactic(auto)]

pub mod interfaces;
pub mod lines;
pub mod pieces;
pub mod reading;
