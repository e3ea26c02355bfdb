//! What is replied to a line, and how often each kind of reply was given.
#![tactic(auto)]

pub mod reply;
pub mod summary;
