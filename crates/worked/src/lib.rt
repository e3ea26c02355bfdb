//! Small networks, with the facts that are proved of them.
#![tactic(auto)]

pub mod example;
