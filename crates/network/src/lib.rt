//! Networks by their links, the graph that holds links by rows, and the part of it that a set induces.
#![tactic(auto)]

pub mod ends;
pub mod graph;
pub mod induced;
pub mod network;
