//! Composite layouts: mirrors made of striped components, each mirror over the whole file.
#![tactic(auto)]

mod choices;
mod component;
mod flag_change;
mod layout;
mod look_ups;
mod make;
mod spec;

pub use choices::ready_mirror;
pub use component::{Component, Flags, State};
pub use flag_change::FlagChange;
pub use layout::Layout;
pub use look_ups::{has_mirror, wholly_fresh};
pub use make::new_mirrors;
pub use spec::{MirrorSpec, MirrorSpecs, Part, Parts, Spec, SpecError};
