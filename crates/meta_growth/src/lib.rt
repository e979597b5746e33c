//! How far one call of the metadata server raises each number: theorems alone.
#![tactic(auto)]

mod growth;

pub use growth::calls_grow_by_little;
