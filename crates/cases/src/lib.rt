//! Worked cases, run as tests.
#![tactic(auto)]

#[cfg(test)]
mod tests;
