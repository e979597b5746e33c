//! The program's call: from its words and the bytes of its input to the bytes of its output.
#![tactic(auto)]

mod main_call;

pub use flr_migrate::migrate_main;
pub use flr_replay::replay_main;
pub use flr_run::run_main;
pub use flr_soak::{random_main, soak_main};
pub use main_call::flr_main;
