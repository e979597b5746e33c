//! Tests of the world and of the top calls: worked rows, and ends that fail in mid-stream.
#![tactic(auto)]

#[cfg(test)]
mod ends;
#[cfg(test)]
mod migrations;
#[cfg(test)]
mod replays;
#[cfg(test)]
mod rows;
#[cfg(test)]
mod scripts;
#[cfg(test)]
mod steps;
