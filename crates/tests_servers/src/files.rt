//! The metadata server, called by hand: worked rows.

use composite_layout::{Spec, State};
use flr_base::{Ids, Name, Range, Reply};
use lfs_words::{LfsCommand, read_lfs};
use meta_server::{Begun, CopyWhat, DoneStop, MergeStop, Meta, MetaStop, Opened, Side};
use std::alloc::Global;
use std::test::Fail;

/// A call of the server. A file is told by the letter of its name.
#[derive(Clone, Copy)]
enum Call {
    /// Makes a file of so many mirrors, one or two.
    Create(u8, u8),
    OpenRead(u8, u8),
    /// Opens the file for a write of its first bytes, so many.
    OpenWrite(u8, u8, u64),
    Confirm,
    Commit(u64),
    Resync(u8, u8),
    /// Begins to compare the first file with the second.
    Compare(u8, u8, u8),
    /// Ends the copy that was begun to this component.
    Done(u32),
    /// Ends the comparing that was begun.
    Merge,
    /// Takes this mirror from the first file, and makes the second of it.
    Split(u8, u8, u16, u8),
    Evict(u8),
}

/// What a call came to.
#[derive(Clone, Copy, Debug, PartialEq, Eq)]
enum Came {
    Did,
    Size(u64),
    /// The copy is to this component alone.
    To(u32),
    /// This mirror alone came to the file.
    Took(u32),
    Lost,
    Gone,
    Broken(u32),
    Blocked(u8),
    NoFile,
    Exists,
    NoMirror(u16),
    Last(u16),
    Stale(u16),
    Busy(u8),
}

/// A file as it is in the end: its letter, its size, the generation and the state of its layout, and
/// whether the last component is stale.
type Shape = (u8, u64, u32, State, bool);

/// Calls at the places from 1 on with what they come to, and the files then, in order of creation.
struct Case {
    calls: &'static [(Call, Came)],
    files: &'static [Shape],
}

const SECOND: u32 = 131074;

const CASES: &[Case] = &[
    // A write leaves a mirror behind, and a resync brings it up to date.
    Case {
        calls: &[
            (Call::Create(b'a', 2), Came::Did),
            (Call::OpenWrite(1, b'a', 3), Came::Did),
            (Call::Commit(3), Came::Did),
            (Call::Resync(1, b'a'), Came::To(SECOND)),
            (Call::Done(SECOND), Came::Did),
        ],
        files: &[(b'a', 3, 4, State::ReadOnly, false)],
    },
    // An intent breaks a lease.
    Case {
        calls: &[
            (Call::Create(b'a', 2), Came::Did),
            (Call::OpenWrite(1, b'a', 3), Came::Did),
            (Call::Commit(3), Came::Did),
            (Call::Resync(1, b'a'), Came::To(SECOND)),
            (Call::Resync(2, b'a'), Came::Busy(1)),
            (Call::OpenWrite(2, b'a', 4), Came::Did),
            (Call::Commit(4), Came::Did),
            (Call::Done(SECOND), Came::Broken(6)),
        ],
        files: &[(b'a', 4, 5, State::WritePending, true)],
    },
    // An eviction between open and confirm, and one between open and commit.
    Case {
        calls: &[
            (Call::Create(b'a', 1), Came::Did),
            (Call::OpenRead(1, b'a'), Came::Did),
            (Call::Evict(1), Came::Did),
            (Call::Confirm, Came::Lost),
            (Call::OpenWrite(1, b'a', 9), Came::Did),
            (Call::Evict(1), Came::Did),
            (Call::Commit(9), Came::Did),
            (Call::OpenRead(1, b'a'), Came::Did),
            (Call::Confirm, Came::Size(9)),
        ],
        files: &[(b'a', 9, 2, State::Single, false)],
    },
    // A split to a file, and what refuses it, in this order.
    Case {
        calls: &[
            (Call::Create(b'a', 2), Came::Did),
            (Call::Create(b'b', 1), Came::Did),
            (Call::OpenWrite(1, b'a', 3), Came::Did),
            (Call::Commit(3), Came::Did),
            (Call::Split(1, b'c', 9, b'b'), Came::NoFile),
            (Call::Split(1, b'a', 9, b'b'), Came::NoMirror(9)),
            (Call::Split(1, b'a', 1, b'b'), Came::Last(1)),
            (Call::Split(1, b'a', 2, b'b'), Came::Stale(2)),
            (Call::Resync(1, b'a'), Came::To(SECOND)),
            (Call::Done(SECOND), Came::Did),
            (Call::OpenRead(2, b'a'), Came::Did),
            (Call::Split(1, b'a', 2, b'b'), Came::Exists),
            (Call::Split(1, b'a', 2, b'c'), Came::Blocked(2)),
            (Call::Confirm, Came::Size(3)),
            (Call::Split(1, b'a', 2, b'c'), Came::Did),
        ],
        files: &[
            (b'a', 3, 5, State::Single, false),
            (b'b', 0, 1, State::Single, false),
            (b'c', 3, 5, State::Single, false),
        ],
    },
    // A merge, and then a commit to the file that is gone.
    Case {
        calls: &[
            (Call::Create(b'a', 1), Came::Did),
            (Call::Create(b'b', 1), Came::Did),
            (Call::OpenWrite(2, b'b', 3), Came::Did),
            (Call::Compare(1, b'a', b'b'), Came::Blocked(2)),
            (Call::Evict(2), Came::Did),
            (Call::Compare(1, b'a', b'b'), Came::Did),
            (Call::Merge, Came::Took(2)),
            (Call::Commit(3), Came::Gone),
        ],
        files: &[(b'a', 0, 4, State::ReadOnly, false)],
    },
];

/// The server, and what was opened and begun last.
#[derive(Drop)]
struct Desk {
    alloc: Global,
    meta: Meta,
    opened: Option<Opened>,
    begun: Option<Begun>,
}

fn new_desk(alloc: Global) -> Option<Desk> {
    Some(Desk {
        alloc,
        meta: Meta::new(alloc, 2, 16).ok()?,
        opened: None,
        begun: None,
    })
}

/// Makes the call at this place. `None` where its conditions don't hold, and where memory runs out.
fn make(desk: &mut Desk, call: Call, place: u32) -> Option<Came> {
    let alloc = desk.alloc;
    match call {
        Call::Create(letter, count) => create(desk, letter, count),
        Call::OpenRead(client, letter) => {
            let opened = open_read(&mut desk.meta, client, &name(alloc, letter)?)?;
            keep_opened(desk, opened)
        }
        Call::OpenWrite(client, letter, end) => {
            let opened = open_write(&mut desk.meta, client, &name(alloc, letter)?, end, place)?;
            keep_opened(desk, opened)
        }
        Call::Confirm => confirm(desk),
        Call::Commit(end) => commit(desk, end),
        Call::Resync(client, letter) => {
            let what = CopyWhat::Resync { only: None };
            let begun = begin(&mut desk.meta, client, &name(alloc, letter)?, &what)?;
            keep_begun(desk, begun)
        }
        Call::Compare(client, letter, other) => {
            let what = CopyWhat::Victim {
                name: name(alloc, other)?,
            };
            let begun = begin(&mut desk.meta, client, &name(alloc, letter)?, &what)?;
            keep_begun(desk, begun)
        }
        Call::Done(id) => done(desk, id),
        Call::Merge => merge(desk),
        Call::Split(client, letter, mirror, other) => {
            let to = name(alloc, other)?;
            split(
                &mut desk.meta,
                client,
                &name(alloc, letter)?,
                mirror,
                &to,
                place,
            )
        }
        Call::Evict(client) => evict(&mut desk.meta, client, place),
    }
}

/// The name of this letter.
fn name(alloc: Global, letter: u8) -> Option<Name> {
    let mut name = Name::new(alloc);
    name.extend_from_slice(&[b'/', letter]).ok()?;
    Some(name)
}

/// One mirror or two, of one component with the defaults.
fn spec_of(alloc: Global, count: u8) -> Option<Spec> {
    let option: &[u8] = match count {
        1 => b"-N",
        2 => b"-N2",
        _ => return None,
    };
    match read_lfs(alloc, &[b"lfs", b"mirror", b"create", option, b"/a"], 16) {
        Ok(LfsCommand::Create { name: _, spec }) => Some(spec),
        _ => None,
    }
}

fn create(desk: &mut Desk, letter: u8, count: u8) -> Option<Came> {
    let spec = spec_of(desk.alloc, count)?;
    let name = name(desk.alloc, letter)?;
    if !desk.meta.has_file_room() {
        return None;
    }
    did(desk.meta.create(&name, &spec))
}

fn open_read(meta: &mut Meta, client: u8, name: &Name) -> Option<Result<Opened, MetaStop>> {
    if client < 1 || client > 16 {
        return None;
    }
    if !meta.may_share(client, name) {
        return None;
    }
    Some(meta.open_read(client, name))
}

fn open_write(
    meta: &mut Meta,
    client: u8,
    name: &Name,
    end: u64,
    place: u32,
) -> Option<Result<Opened, MetaStop>> {
    if client < 1 || client > 16 {
        return None;
    }
    if !meta.may_share(client, name) {
        return None;
    }
    if !meta.has_generation_room() || !meta.has_object_room() {
        return None;
    }
    Some(meta.open_write(client, name, Range { start: 0, end }, place))
}

fn keep_opened(desk: &mut Desk, opened: Result<Opened, MetaStop>) -> Option<Came> {
    match opened {
        Ok(opened) => {
            desk.opened = Some(opened);
            Some(Came::Did)
        }
        Err(stop) => stopped(stop),
    }
}

fn confirm(desk: &mut Desk) -> Option<Came> {
    let Opened {
        file,
        cookie,
        layout: _,
        size: _,
    } = desk.opened.take()?;
    match desk.meta.confirm(file, cookie) {
        Ok(size) => Some(Came::Size(size)),
        Err(_) => Some(Came::Lost),
    }
}

fn commit(desk: &mut Desk, end: u64) -> Option<Came> {
    let Opened {
        file,
        cookie,
        layout: _,
        size: _,
    } = desk.opened.take()?;
    match desk.meta.commit(file, cookie, end) {
        Ok(()) => Some(Came::Did),
        Err(_) => Some(Came::Gone),
    }
}

fn begin(
    meta: &mut Meta,
    client: u8,
    name: &Name,
    what: &CopyWhat,
) -> Option<Result<Begun, MetaStop>> {
    if client < 1 || client > 16 || meta.has_key(client) || !what.may_be_on(name) {
        return None;
    }
    if !meta.has_key_room() || !meta.has_generation_room() || !meta.has_object_room() {
        return None;
    }
    Some(meta.begin_copy(client, name, what))
}

fn keep_begun(desk: &mut Desk, begun: Result<Begun, MetaStop>) -> Option<Came> {
    match begun {
        Ok(begun) => {
            let came = match &begun {
                Begun::Nothing | Begun::Merge { ours: _, theirs: _ } => Some(Came::Did),
                Begun::Copy { side: _, ids } => Some(Came::To(only(ids)?)),
            };
            desk.begun = Some(begun);
            came
        }
        Err(stop) => stopped(stop),
    }
}

/// The only one of these ids.
fn only(ids: &Ids) -> Option<u32> {
    match ids.as_slice() {
        [id] => Some(*id),
        _ => None,
    }
}

fn done(desk: &mut Desk, id: u32) -> Option<Came> {
    let mut ids = Ids::new(desk.alloc);
    ids.push(id).ok()?;
    let Begun::Copy { side, ids: _ } = desk.begun.take()? else {
        return None;
    };
    let Side {
        key,
        file: _,
        layout: _,
    } = side;
    if !desk.meta.has_generation_room() {
        return None;
    }
    match desk.meta.copy_done(key, &ids) {
        Ok(()) => Some(Came::Did),
        Err(DoneStop::Broken { step }) => Some(Came::Broken(step)),
        Err(DoneStop::Blocked { key: _, holder }) => Some(Came::Blocked(holder)),
    }
}

fn merge(desk: &mut Desk) -> Option<Came> {
    let Begun::Merge { ours, theirs } = desk.begun.take()? else {
        return None;
    };
    let Side {
        key: ours,
        file: _,
        layout: _,
    } = ours;
    let Side {
        key: theirs,
        file: _,
        layout: _,
    } = theirs;
    if !desk.meta.may_merge(&ours, &theirs) || !desk.meta.has_generation_room() {
        return None;
    }
    match desk.meta.merge_done(ours, theirs) {
        Ok(ids) => Some(Came::Took(only(&ids)?)),
        Err(MergeStop::Broken { step }) => Some(Came::Broken(step)),
        Err(
            MergeStop::Blocked {
                ours: _,
                theirs: _,
                holder,
            },
        ) => Some(Came::Blocked(holder)),
        Err(MergeStop::NoMemory { ours: _, theirs: _ }) => None,
    }
}

fn split(
    meta: &mut Meta,
    client: u8,
    name: &Name,
    mirror: u16,
    to: &Name,
    place: u32,
) -> Option<Came> {
    if !meta.has_file_room() || !meta.has_generation_room() {
        return None;
    }
    did(meta.remove(client, name, mirror, Some(to), place))
}

fn evict(meta: &mut Meta, client: u8, place: u32) -> Option<Came> {
    if client < 1 || client > 16 {
        return None;
    }
    meta.evict(client, place);
    Some(Came::Did)
}

fn did(made: Result<(), MetaStop>) -> Option<Came> {
    match made {
        Ok(()) => Some(Came::Did),
        Err(stop) => stopped(stop),
    }
}

/// Why a call gave nothing.
fn stopped(stop: MetaStop) -> Option<Came> {
    match stop {
        MetaStop::Refused(reply) => refused(&reply),
        MetaStop::Blocked { holder } => Some(Came::Blocked(holder)),
        MetaStop::NoMemory => None,
    }
}

fn refused(reply: &Reply) -> Option<Came> {
    match reply {
        Reply::NoFile(_) => Some(Came::NoFile),
        Reply::Exists(_) => Some(Came::Exists),
        Reply::NoMirrorId(id) => Some(Came::NoMirror(*id)),
        Reply::LastFresh(id) => Some(Came::Last(*id)),
        Reply::StaleMirror(id) => Some(Came::Stale(*id)),
        Reply::Busy(client) => Some(Came::Busy(*client)),
        _ => None,
    }
}

/// The file at this place, in order of creation.
fn shape_at(meta: &Meta, place: usize) -> Option<Shape> {
    if place >= meta.files() {
        return None;
    }
    let (name, size, layout) = meta.file_at(place);
    let letter = *name.as_slice().last()?;
    let last = layout.components().last()?;
    Some((
        letter,
        size,
        layout.generation(),
        layout.state(),
        last.flags.stale,
    ))
}

/// The files in order of creation.
fn shapes(alloc: Global, meta: &Meta) -> Option<Vec<Shape>> {
    let mut shapes = Vec::new(alloc);
    for place in 0..meta.files() {
        shapes.push(shape_at(meta, place)?).ok()?;
    }
    Some(shapes)
}

/// The files that the calls leave. `None` where one comes to something else.
fn left_by(alloc: Global, calls: &[(Call, Came)]) -> Option<Vec<Shape>> {
    let mut desk = new_desk(alloc)?;
    let mut place = 0u32;
    for (call, came) in calls {
        place = place.checked_add(1)?;
        if make(&mut desk, *call, place)? != *came {
            return None;
        }
    }
    shapes(alloc, &desk.meta)
}

#[test]
fn files_are_changed_in_turn(rt: HostRuntime) -> Result<(), Fail> {
    for case in CASES {
        let files = left_by(rt.alloc(), case.calls);
        assert!(rt; files.as_ref().map(|files| files.as_slice()) == Some(case.files));
    }
    Ok(())
}
