//! Bytes as text, by runs.

mod fault;
mod printing;
mod reading;
mod run;
mod scan;

pub use fault::RunsError;
pub use printing::{print_runs, runs_of};
pub use reading::read_runs;
pub use run::Run;
