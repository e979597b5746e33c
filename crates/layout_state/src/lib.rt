//! Choices from a file's layout and changes of it: which mirror a write goes to and which components
//! a resync copies to; what a write, a copy, and the commands that add, take away and mark mirrors do
//! to a layout, and when each is refused.
#![tactic(auto)]

mod add;
mod change_laws;
mod choices;
mod error;
mod intents;
mod leases;
mod maker;
mod mark_laws;
mod marks;
mod merging;
mod mirror_laws;
mod objects;
mod refusals;
mod remove;
mod select;

pub use add::add_mirrors;
pub use change_laws::{changes_keep_valid, splits_and_merges_are_valid};
pub use choices::{primary, ready};
pub use error::StateError;
pub use intents::intent;
pub use leases::break_lease;
pub use maker::ObjectMaker;
pub use mark_laws::{
    components_stay, generation_grows, intent_readies, marks_keep_valid, objects_are_new,
    stale_stays,
};
pub use marks::{done, set_flags};
pub use merging::merge;
pub use mirror_laws::{generations_grow, mirrors_stay_as_fresh, what_mirrors_keep};
pub use objects::begin;
pub use refusals::{add_refusal, merge_refusal, remove_refusal, set_refusal};
pub use remove::remove_mirror;
pub use select::selected;
