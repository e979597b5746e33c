//! Tests of `script_text`: scripts and replay inputs with what they are read as.
#![tactic(auto)]

#[cfg(test)]
mod reading;
