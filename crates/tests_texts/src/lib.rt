//! Tests of the text crates: each public call once, and worked rows.
#![tactic(auto)]

#[cfg(test)]
mod commands;
#[cfg(test)]
mod layouts;
#[cfg(test)]
mod values;
