//! The names that calls take and answer: models, ways to stand, and refusals with their numbers.
#![tactic(auto)]

pub mod model_kind;
pub mod refusal;
pub mod standing;
