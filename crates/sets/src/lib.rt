//! Sets of members.
#![tactic(auto)]

pub mod member_set;
pub mod members;
