//! Two clients that run their commands by a schedule, and whether what comes of it is what is told.

use crate::steps::{Answer, Came, Line, Running, Servers, begun, stepped};
use crate::told::{Told, is_told};
use extent_lock::ExtentLocks;
use flr_base::Entry;
use layout_text::print_layout;
use meta_server::Meta;
use object_target::{Fail, Targets};
use std::alloc::Global;

/// A call that has ended: its client, its number among that client's commands, the places of its
/// first step, of its point and of its last step, and its answer.
pub type Row = (u8, u32, (u32, u32, u32), Told);

/// So many targets, the calls that are listed to fail, the commands of both clients, and how many
/// steps each makes at a time. Then what is told of some of the calls, and the text of the first
/// file's layout in the end, where that is told.
pub struct Case {
    pub targets: u8,
    pub fails: &'static [Fail],
    pub commands: (&'static [Line], &'static [Line]),
    pub schedule: &'static [(u8, u32)],
    pub calls: &'static [Row],
    pub layout: &'static [u8],
}

/// A client: its commands, how many it has begun, the one that it runs with the place of its first
/// step, that of its point and its answer, and the calls that have ended.
#[derive(Drop)]
struct Seat {
    client: u8,
    lines: &'static [Line],
    begun: u32,
    running: Option<Running>,
    first: u32,
    at: u32,
    answer: Option<Answer>,
    entries: Vec<Entry>,
}

/// Whether the case comes out as it is told. `None` where a step couldn't be made.
pub fn is_as_told(alloc: Global, case: &Case) -> Option<bool> {
    let mut servers = servers_of(alloc, case.targets, case.fails)?;
    let mut first = new_seat(alloc, 1, case.commands.0);
    let mut second = new_seat(alloc, 2, case.commands.1);
    let mut place = 0u32;
    for (client, steps) in case.schedule {
        for _ in 0..*steps {
            place = place.checked_add(1)?;
            match *client {
                1 => step(&mut first, &mut servers, place)?,
                2 => step(&mut second, &mut servers, place)?,
                _ => return None,
            }
        }
    }
    for (client, number, places, told) in case.calls {
        let seat = match *client {
            1 => &first,
            2 => &second,
            _ => return None,
        };
        let entry = seat.entries.get(number.checked_sub(1)? as usize)?;
        if (entry.first, entry.at, entry.last) != *places || !is_told(entry, told) {
            return Some(false);
        }
    }
    Some(case.layout.is_empty() || has_layout(alloc, &servers.meta, case.layout)?)
}

fn servers_of(alloc: Global, targets: u8, fails: &[Fail]) -> Option<Servers> {
    if targets < 1 || targets > 64 {
        return None;
    }
    Some(Servers {
        alloc,
        meta: Meta::new(alloc, targets, 16).ok()?,
        targets: Targets::new(alloc, targets, fails).ok()?,
        locks: ExtentLocks::new(alloc),
    })
}

fn new_seat(alloc: Global, client: u8, lines: &'static [Line]) -> Seat {
    Seat {
        client,
        lines,
        begun: 0,
        running: None,
        first: 0,
        at: 0,
        answer: None,
        entries: Vec::new(alloc),
    }
}

/// Makes the next step of a client.
fn step(seat: &mut Seat, servers: &mut Servers, place: u32) -> Option<()> {
    let running = next_of(seat, servers.alloc, place)?;
    let came = stepped(running, seat.client, servers, place)?;
    note(seat, came, place)
}

/// What the client runs, or the next of its commands.
fn next_of(seat: &mut Seat, alloc: Global, place: u32) -> Option<Running> {
    match seat.running.take() {
        Some(running) => Some(running),
        None => {
            let line = *seat.lines.get(seat.begun as usize)?;
            seat.begun = seat.begun.checked_add(1)?;
            seat.first = place;
            begun(alloc, seat.client, line)
        }
    }
}

/// What a step came to is kept, and the call noted where it has ended.
fn note(seat: &mut Seat, came: Came, place: u32) -> Option<()> {
    let Came { next, answer } = came;
    if answer.is_some() {
        seat.answer = answer;
        seat.at = place;
    }
    if next.is_some() {
        seat.running = next;
        return Some(());
    }
    let (reply, takes) = seat.answer.take()?;
    let entry = Entry {
        client: seat.client,
        number: seat.begun,
        first: seat.first,
        at: seat.at,
        last: place,
        reply,
        takes,
    };
    seat.entries.push(entry).ok()
}

/// Whether the first file has the layout of this text.
fn has_layout(alloc: Global, meta: &Meta, text: &[u8]) -> Option<bool> {
    if meta.files() < 1 {
        return None;
    }
    let (_, _, layout) = meta.file_at(0);
    Some(print_layout(alloc, layout).ok()?.as_slice() == text)
}
