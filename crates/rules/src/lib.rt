//! The definitions that every promise is built on, and their theorems.
#![tactic(auto)]
