//! Tests of scripts as values: worked rows, and each public call once.
#![tactic(auto)]

mod rows;

pub use rows::worked_rows;

#[cfg(test)]
mod commands;
#[cfg(test)]
mod scripts;
