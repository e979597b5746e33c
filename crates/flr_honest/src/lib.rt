//! What the files hold in every run without rot: the bytes of the plain files. So each answer is one that
//! plain files allow at its point, and every run is linear. And why calls are answered as they are, and what each step
//! changes.
#![tactic(auto)]

mod answered;
mod answers;
mod laws;
mod stepped;

pub use answered::{
    answers_are_alone, answers_have_causes, calls_go_well, refusals_come_first,
    verifies_tell_what_they_read,
};
pub use answers::{
    answers_are_allowed, calls_are_linear, copies_know_their_files, last_writes_are_read,
};
pub use laws::{
    bytes_follow_answers, calls_have_their_pieces, calls_send_their_parts, copies_are_fit,
    copies_have_victims, copies_know_what_they_put, copies_stay_true, each_step_writes_so,
    files_hold_the_plain_files, fresh_components_come_from_somewhere,
    fresh_components_hold_the_bytes, names_and_sizes_agree, new_files_have, parts_land_once,
    reads_know_what_they_got, stores_follow_answers, truncates_are_readied,
    verifies_find_copies_alike, what_landed_stays,
};
pub use stepped::{
    evictions_take_theirs, objects_stay_apart, stale_is_cleared_by_copies, steps_change_their_files,
};
