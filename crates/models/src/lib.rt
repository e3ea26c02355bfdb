//! The models of groups.
#![tactic(auto)]

pub mod edge_triangle;
pub mod hereditary;
pub mod named_model;
mod parameter;
pub mod plain;
pub mod robust;
pub mod vertex_triangle;
