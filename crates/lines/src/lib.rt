//! A line of input, gathered byte by byte.
#![tactic(auto)]

pub mod line_buffer;

/// No readable line is longer.
pub const LONGEST: usize = 1000;
