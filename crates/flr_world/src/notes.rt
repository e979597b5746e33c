//! The list of calls, as it learns of steps.

ghost use Rattle.std.specs.Prelude.{◌≡◌, ◌<◌, length, vec_len, vec_capacity};
ghost use Rattle.flr_steps.specs.States.{closed, noted};
ghost use Rattle.flr_world.specs.Worlds.{IsOnlyPending, pending_after};

use flr_base::Entry;
use flr_steps::Note;

/// The calls learn of a step of a client at this place. Its call that hasn't ended is found by its place
/// in the list.
pub(crate) fn put_note(
    entries: &mut Vec<Entry>,
    pending: &mut usize,
    client: u8,
    place: u32,
    note: Note,
)
    requires room { vec_len entries.old < vec_capacity entries.old }
    requires pending { IsOnlyPending client pending.old entries.old.items }
    ensures entries { entries.new.items ≡ noted client place entries.old.items note }
    ensures pending { pending.new ≡ pending_after pending.old (length entries.old.items) note }
{
    match note {
        Note::Nothing => {}
        Note::Adds(entry) => {
            if entry.last == 0 {
                *pending = entries.len();
            }
            let _ = entries.push(entry);
        }
        Note::Closes => {
            if *pending < entries.len() {
                close(&mut entries[*pending], client, place);
            }
        }
    }
}

/// The call ends at this place, where it is one of this client that hasn't ended.
fn close(entry: &mut Entry, client: u8, place: u32)
    ensures { entry.new ≡ closed client place entry.old }
{
    if entry.client == client && entry.last == 0 {
        entry.last = place;
    }
}
