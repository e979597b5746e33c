//! Tests of what every crate stands on, and of the parts of texts: worked
//! rows, failures in mid-stream, and each public call once.
#![tactic(auto)]

#[cfg(test)]
mod ends;
#[cfg(test)]
mod lists;
#[cfg(test)]
mod printers;
#[cfg(test)]
mod readers;
#[cfg(test)]
mod runs;
