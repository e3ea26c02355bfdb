//! What a model of groups is, models by a rule on two members, and how a set stands under any model.
#![tactic(auto)]

pub mod model;
pub mod pair_rule;
pub mod sheet;
pub mod standing;
