//! The matrix, a kind of network with room for every link that 64 members can have.
#![tactic(auto)]

pub mod matrix;
