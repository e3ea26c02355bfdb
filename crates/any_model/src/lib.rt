//! One of the models, chosen when the program runs.
#![tactic(auto)]

pub mod any_model;
