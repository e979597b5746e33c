//! Tests of the turn cell, the crew and `flr run`, over worlds.
#![tactic(auto)]

#[cfg(test)]
mod crews;
#[cfg(test)]
mod runs;
#[cfg(test)]
mod scripts;
#[cfg(test)]
mod turns;
