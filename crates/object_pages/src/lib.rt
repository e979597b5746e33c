//! The bytes of an object, kept as sparse pages under the contract of a list of bytes.
#![tactic(auto)]

mod content;
mod pages;

pub use content::Content;
