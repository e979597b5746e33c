//! Tests of the calls of clients, step by step on servers that are set up by hand: worked rows.
#![tactic(auto)]

#[cfg(test)]
mod changes;
#[cfg(test)]
mod copies;
#[cfg(test)]
mod reads;
#[cfg(test)]
mod site;
#[cfg(test)]
mod steps;
#[cfg(test)]
mod told;
#[cfg(test)]
mod writes;
