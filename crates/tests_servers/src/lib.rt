//! Tests of the servers' crates: worked rows, and each public call once.
#![tactic(auto)]

#[cfg(test)]
mod bytes;
#[cfg(test)]
mod calls;
#[cfg(test)]
mod files;
#[cfg(test)]
mod leases;
#[cfg(test)]
mod locks;
