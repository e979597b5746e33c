//! What a command's call is, and its next step.

ghost use Rattle.std.specs.Prelude.{◌≡◌, IsTrue, true};
ghost use Rattle.mirror_admin.specs.OneStep.{is_one_step};

use client_read::ReadCall;
use client_write::{TruncateCall, WriteCall};
use extent_lock::ExtentLocks;
use flr_base::{Name, ObjectId, Octets, Progress, Reply, Takes};
use lfs_words::{LfsCommand, read_lfs};
use meta_server::{CopyWhat, Meta};
use mirror_admin::{Admin, admin, evict, rot};
use mirror_verify::VerifyCall;
use object_target::Targets;
use resync_copy::CopyCall;
use std::alloc::Global;

/// The servers of a site.
#[derive(Drop)]
pub struct Servers {
    pub alloc: Global,
    pub meta: Meta,
    pub targets: Targets,
    pub locks: ExtentLocks,
}

/// A command: its words, if it is one of `lfs`, or else what it is asked for. The bytes of a write
/// are told by runs of the same byte.
#[derive(Clone, Copy)]
pub enum Line {
    Lfs(&'static [&'static [u8]]),
    Read(&'static [u8], u64, u32),
    Write(&'static [u8], u64, &'static [(u8, u32)]),
    Truncate(&'static [u8], u64),
    Evict(u8),
    Rot(ObjectId, u64, u8),
}

/// A command that a client runs.
#[derive(Drop)]
pub enum Running {
    Read(ReadCall),
    Write(WriteCall),
    Truncate(TruncateCall),
    Copy(CopyCall),
    Verify(VerifyCall),
    /// It has one step.
    Admin(LfsCommand),
    Evict(u8),
    Rot(ObjectId, u64, u8),
}

/// An answer, with who answered each piece of a read.
pub type Answer = (Reply, Takes);

/// What a step came to: how the call goes on, if it does, and the answer, if this step fixed it.
#[derive(Drop)]
pub struct Came {
    pub next: Option<Running>,
    pub answer: Option<Answer>,
}

/// The command's call before its first step. `None` where the command may not be asked for.
pub fn begun(alloc: Global, client: u8, line: Line) -> Option<Running> {
    match line {
        Line::Lfs(words) => lfs(alloc, client, words),
        Line::Read(name, offset, length) => read(
            alloc,
            client,
            named(alloc, name)?,
            offset,
            length,
        ),
        Line::Write(name, offset, runs) => {
            write(
                alloc,
                client,
                named(alloc, name)?,
                offset,
                bytes_of(alloc, runs)?,
            )
        }
        Line::Truncate(name, size) => truncate(alloc, client, named(alloc, name)?, size),
        Line::Evict(other) => Some(Running::Evict(other)),
        Line::Rot(object, offset, byte) => Some(Running::Rot(object, offset, byte)),
    }
}

fn named(alloc: Global, bytes: &[u8]) -> Option<Name> {
    let mut name = Name::new(alloc);
    name.extend_from_slice(bytes).ok()?;
    Some(name)
}

fn bytes_of(alloc: Global, runs: &[(u8, u32)]) -> Option<Octets> {
    let mut bytes = Octets::new(alloc);
    for (byte, count) in runs {
        for _ in 0..*count {
            bytes.push(*byte).ok()?;
        }
    }
    Some(bytes)
}

fn lfs(alloc: Global, client: u8, words: &[&[u8]]) -> Option<Running> {
    match read_lfs(alloc, words, 16).ok()? {
        LfsCommand::Resync { name, only } => copy(alloc, client, name, CopyWhat::Resync { only }),
        LfsCommand::Extend { name, spec } => copy(alloc, client, name, CopyWhat::Extend { spec }),
        LfsCommand::ExtendBy { name, victim } => {
            copy(alloc, client, name, CopyWhat::Victim { name: victim })
        }
        LfsCommand::Verify { name } => verify(alloc, client, name),
        other => Some(Running::Admin(other)),
    }
}

fn read(alloc: Global, client: u8, name: Name, offset: u64, length: u32) -> Option<Running> {
    if client < 1 || client > 16 || offset > 268435456 || length < 1 || length > 1048576 {
        return None;
    }
    Some(Running::Read(ReadCall::new(alloc, client, name, offset, length)))
}

fn write(alloc: Global, client: u8, name: Name, offset: u64, bytes: Octets) -> Option<Running> {
    if client < 1 || client > 16 || offset > 1 << 40 || bytes.len() < 1 || bytes.len() > 1048576 {
        return None;
    }
    Some(Running::Write(WriteCall::new(alloc, client, name, offset, bytes)))
}

fn truncate(alloc: Global, client: u8, name: Name, size: u64) -> Option<Running> {
    if client < 1 || client > 16 || size > 1 << 40 {
        return None;
    }
    Some(Running::Truncate(TruncateCall::new(alloc, client, name, size)))
}

fn copy(alloc: Global, client: u8, name: Name, what: CopyWhat) -> Option<Running> {
    if client < 1 || client > 16 || !what.may_be_on(&name) {
        return None;
    }
    Some(Running::Copy(CopyCall::new(alloc, client, name, what)))
}

fn verify(alloc: Global, client: u8, name: Name) -> Option<Running> {
    if client < 1 || client > 16 {
        return None;
    }
    Some(Running::Verify(VerifyCall::new(alloc, client, name)))
}

/// The next step of a client's call, at this place. `None` where its conditions don't hold, where
/// somebody is in its way, and where memory runs out.
pub fn stepped(running: Running, client: u8, servers: &mut Servers, place: u32) -> Option<Came> {
    match running {
        Running::Read(call) => read_step(call, servers, place),
        Running::Write(call) => write_step(call, servers, place),
        Running::Truncate(call) => truncate_step(call, servers, place),
        Running::Copy(call) => copy_step(call, servers, place),
        Running::Verify(call) => verify_step(call, servers, place),
        Running::Admin(command) => once(
            servers.alloc,
            admin_step(&command, client, servers, place)?,
        ),
        Running::Evict(other) => once(servers.alloc, evict_step(other, servers, place)?),
        Running::Rot(object, offset, byte) => {
            once(servers.alloc, rot_step(object, offset, byte, servers)?)
        }
    }
}

/// The only step of a command answered so.
fn once(alloc: Global, reply: Reply) -> Option<Came> {
    Some(Came {
        next: None,
        answer: Some((reply, Takes::new(alloc))),
    })
}

fn read_step(call: ReadCall, servers: &mut Servers, place: u32) -> Option<Came> {
    if !call.may_step(&servers.meta, &servers.targets, &servers.locks) {
        return None;
    }
    let made = call.step(
        &mut servers.meta,
        &mut servers.targets,
        &mut servers.locks,
        place,
    );
    let (next, answer) = parts(made)?;
    let next = match next {
        Some(call) => Some(Running::Read(call)),
        None => None,
    };
    Some(Came { next, answer })
}

fn write_step(call: WriteCall, servers: &mut Servers, place: u32) -> Option<Came> {
    if !call.may_step(&servers.meta, &servers.targets, &servers.locks) {
        return None;
    }
    let made = call.step(
        &mut servers.meta,
        &mut servers.targets,
        &mut servers.locks,
        place,
    );
    let (next, answer) = parts(made)?;
    let next = match next {
        Some(call) => Some(Running::Write(call)),
        None => None,
    };
    Some(Came { next, answer })
}

fn truncate_step(call: TruncateCall, servers: &mut Servers, place: u32) -> Option<Came> {
    if !call.may_step(&servers.meta, &servers.targets, &servers.locks) {
        return None;
    }
    let made = call.step(
        &mut servers.meta,
        &mut servers.targets,
        &mut servers.locks,
        place,
    );
    let (next, answer) = parts(made)?;
    let next = match next {
        Some(call) => Some(Running::Truncate(call)),
        None => None,
    };
    Some(Came { next, answer })
}

fn copy_step(call: CopyCall, servers: &mut Servers, place: u32) -> Option<Came> {
    if !call.may_step(&servers.meta, &servers.targets, &servers.locks) {
        return None;
    }
    let made = call.step(
        &mut servers.meta,
        &mut servers.targets,
        &mut servers.locks,
        place,
    );
    let (next, answer) = parts(made)?;
    let next = match next {
        Some(call) => Some(Running::Copy(call)),
        None => None,
    };
    Some(Came { next, answer })
}

fn verify_step(call: VerifyCall, servers: &mut Servers, place: u32) -> Option<Came> {
    if !call.may_step(&servers.meta, &servers.targets) {
        return None;
    }
    let made = call.step(&mut servers.meta, &mut servers.targets, place);
    let (next, answer) = parts(made)?;
    let next = match next {
        Some(call) => Some(Running::Verify(call)),
        None => None,
    };
    Some(Came { next, answer })
}

/// How the call goes on, and its answer, each where there is one. `None` where the step wasn't made.
fn parts<C: Drop>(made: Progress<C>) -> Option<(Option<C>, Option<Answer>)> {
    match made {
        Progress::Going(call) => Some((Some(call), None)),
        Progress::Fixed { call, reply, takes } => Some((Some(call), Some((reply, takes)))),
        Progress::Ended => Some((None, None)),
        Progress::Answered { reply, takes } => Some((None, Some((reply, takes)))),
        Progress::Blocked { call: _, holder: _ } | Progress::NoMemory(_) => None,
    }
}

fn evict_step(client: u8, servers: &mut Servers, place: u32) -> Option<Reply> {
    if client < 1 || client > 16 {
        return None;
    }
    Some(evict(client, &mut servers.meta, place))
}

fn rot_step(object: ObjectId, offset: u64, byte: u8, servers: &mut Servers) -> Option<Reply> {
    if usize::from(object.target) >= servers.targets.len() || offset > 268435456 {
        return None;
    }
    rot(&mut servers.targets, object, offset, byte).ok()
}

/// The answer of an `lfs` command of one step.
fn admin_step(
    command: &LfsCommand,
    client: u8,
    servers: &mut Servers,
    place: u32,
) -> Option<Reply> {
    if !has_one_step(command)
        || !servers.meta.has_file_room()
        || !servers.meta.has_generation_room()
    {
        return None;
    }
    match admin(servers.alloc, client, command, &mut servers.meta, place) {
        Admin::Answered(reply) => Some(reply),
        Admin::Blocked { holder: _ } | Admin::NoMemory => None,
    }
}

/// Whether the command has one step.
fn has_one_step(command: &LfsCommand) -> bool
    ensures { IsTrue result → is_one_step command.now ≡ true }
{
    match command {
        LfsCommand::SetStripe { name: _, spec: _ } => true,
        LfsCommand::Create { name: _, spec: _ } => true,
        LfsCommand::GetStripe { name: _ } => true,
        LfsCommand::CompSet {
            name: _,
            id: _,
            change: _,
        } => true,
        LfsCommand::Split {
            name: _,
            mirror: _,
            to: _,
        } => true,
        LfsCommand::Delete { name: _, mirror: _ } => true,
        LfsCommand::Extend { name: _, spec: _ } => false,
        LfsCommand::ExtendBy { name: _, victim: _ } => false,
        LfsCommand::Resync { name: _, only: _ } => false,
        LfsCommand::Verify { name: _ } => false,
    }
}
