//! Tests of the crates of striping, layouts, their changes and choices from them: worked rows, and
//! each public call once.
#![tactic(auto)]

#[cfg(test)]
mod asked;
#[cfg(test)]
mod changes;
#[cfg(test)]
mod choices;
#[cfg(test)]
mod files;
#[cfg(test)]
mod look_ups;
#[cfg(test)]
mod striping;
