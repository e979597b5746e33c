//! The world.

ghost use Rattle.std.specs.Prelude.{◌≡◌, ◌<◌, ◌+◌, ◌≤◌, ◌∷◌, [], ◌++◌, length, get_or, is_some, vec_len, vec_capacity, IfOk, option_copied};
ghost use Rattle.script_values.specs.Scripts.{command_after};
ghost use Rattle.flr_steps.specs.States.{IsRun, new_client, start, unfinished_of};
ghost use Rattle.flr_world.specs.Answers.{StepGives};
ghost use Rattle.flr_world.specs.Claims.{IsSoundRun};
ghost use Rattle.flr_world.specs.Counts.{unfinished_count};

use crate::member::{Member, new_members};
use crate::notes::put_note;
use client_step::CallerAnswer;
use extent_lock::ExtentLocks;
use flr_base::{Entry, NoMemory};
use meta_server::Meta;
use object_target::Targets;
use script_values::{Command, Script};
use std::alloc::Global;
use std::marker::Model;
use turn_cell::{StepAnswer, Stepped};

/// The clients of a script, the servers that they step on, the calls so far and the schedule so far. It
/// is always the state after that script and schedule.
#[derive(Drop)]
pub struct World {
    pub(crate) alloc: Global,
    pub(crate) script: Script,
    pub(crate) meta: Meta,
    targets: Targets,
    locks: ExtentLocks,
    members: Vec<Member>,
    pub(crate) entries: Vec<Entry>,
    pub(crate) schedule: Vec<u8>,
}

impl Model for World {
    ghost use Rattle.flr_steps.specs.States.{State};
    ghost use Rattle.flr_world.specs.Worlds.{IsWorld, shown};

    ghost Value = { State };

    ghost view = { λ w. shown w.script w.meta w.targets w.locks w.members.items w.entries.items w.schedule.items };

    ghost invariant = { λ w. IsWorld w.script w.meta w.targets w.locks w.members.items w.entries.items w.schedule.items };
}

impl World {
    /// The world before any step: no files, and targets that keep nothing.
    pub fn start(alloc: Global, script: Script) -> Result<World, NoMemory>
        ensures start { IfOk result (λ world. world ≡ start script) }
        ensures run { IfOk result (λ world. IsRun world) }
    {
        let meta = Meta::new(alloc, script.targets(), script.most())?;
        let targets = Targets::new(alloc, script.targets(), script.fails())?;
        let members = new_members(alloc, script.clients())?;
        Ok(World {
            alloc,
            script,
            meta,
            targets,
            locks: ExtentLocks::new(alloc),
            members,
            entries: Vec::new(alloc),
            schedule: Vec::new(alloc),
        })
    }

    /// The script.
    pub fn script(&self) -> &Script
        ensures same { result.now ≡ self.now.script }
    {
        &self.script
    }

    /// The metadata server.
    pub fn meta(&self) -> &Meta
        ensures same { result.now ≡ self.now.shared.meta }
    {
        &self.meta
    }

    /// The targets.
    pub fn targets(&self) -> &Targets
        ensures same { result.now ≡ self.now.shared.targets }
    {
        &self.targets
    }

    /// The calls whose answer is fixed, in the order of their points.
    pub fn entries(&self) -> &[Entry]
        ensures same { result.now ≡ self.now.entries }
        ensures run { IsRun self.now }
    {
        self.entries.as_slice()
    }

    /// A world is a state of a run, always.
    pub fn keeps_run(&self)
        ensures { IsRun self.now }
    {
        let _ = &self.script;
    }

    /// Who stepped so far, in order.
    pub fn schedule(&self) -> &[u8]
        ensures same { result.now ≡ self.now.schedule }
    {
        self.schedule.as_slice()
    }

    /// The lowest client that has a command left.
    pub fn unfinished(&self) -> Option<u8>
        ensures lowest { result ≡ unfinished_of self.now }
    {
        for k in 0..self.script.clients() {
            if self.has_left(k) {
                return Some(k + 1);
            }
        }
        None
    }

    /// How many clients have a command left.
    pub fn left(&self) -> u8
        ensures count { result ≡ unfinished_count self.now.script 1 self.now.clients }
    {
        let mut found = 0;
        for k in 0..self.script.clients() {
            if self.has_left(k) {
                found += 1;
            }
        }
        found
    }

    /// Whether the client at this place, counted from 0, has a command left.
    fn has_left(&self, k: u8) -> bool
        requires { k < length self.now.clients }
        ensures { result ≡ is_some (command_after self.now.script (k + 1) (get_or self.now.clients k new_client).done) }
    {
        let done = self.members[usize::from(k)].caller.client.done;
        next_command(&self.script, k + 1, done).is_some()
    }

    /// The client makes its next step. All answers but `Stepped` leave the world as it was. Want of memory
    /// takes the place of neither `Unknown` nor `Finished`. It may take that of `Blocked` where the step takes
    /// memory first: room for its place in the schedule and for its answer, a copy of what the command asks
    /// for at the first try to begin it, and what a call of the metadata server takes that waits for who
    /// shares a layout lock.
    ///
    /// Whatever was answered, the calls so far stand in order, each with a moment of its own between its first
    /// and its last step; each layout is valid, with a wholly fresh mirror; each change of a layout that a step
    /// of the run made is one of those that a metadata server makes. Each part of a write or a truncate that may
    /// still land, or has landed before its call's moment, lies in the only fresh components there. Where no
    /// command of the script lets a byte rot, the files are the plain files that the calls so far leave, and every
    /// fresh component holds their bytes, but where a write or a truncate has landed that is before its moment.
    /// Again without such a command, each answer to a command that is neither a resync nor an extend has its cause, and
    /// no other answer has one: so each byte that a read answered came from a fresh component. What refuses a command
    /// comes first; and a step changes just what its command is for. While some client has a command left, some client
    /// can make its next step; and there are no more steps than the script's work.
    pub fn step(&mut self, client: u8) -> StepAnswer
        ensures step { StepGives self.old client result self.new }
        ensures run { IsRun self.new }
        ensures sound { IsSoundRun self.new }
    {
        if client == 0 || client > self.script.clients() {
            return StepAnswer::Unknown;
        }
        let member = &mut self.members[usize::from(client) - 1];
        let done = member.caller.client.done;
        let Some(command) = next_command(&self.script, client, done) else {
            return StepAnswer::Finished;
        };
        if self.schedule.reserve(1).is_err() || self.entries.reserve(1).is_err() {
            return StepAnswer::NoMemory;
        }
        let place = self.schedule.len() as u32 + 1;
        match member.caller.step(
            self.alloc,
            client,
            place,
            command,
            &mut self.meta,
            &mut self.targets,
            &mut self.locks,
        ) {
            CallerAnswer::Moved(note) => {
                put_note(&mut self.entries, &mut member.pending, client, place, note);
                put_place(&mut self.schedule, client);
                StepAnswer::Stepped
            }
            CallerAnswer::Blocked { holder } => StepAnswer::Blocked { holder },
            CallerAnswer::NoMemory => StepAnswer::NoMemory,
        }
    }
}

impl Stepped for World {
    ghost use Rattle.flr_world.specs.Answers.{IsAllowed};

    type Origin = Script;

    ghost schedule = { λ w. w.schedule };

    ghost origin = { λ w. w.script };

    ghost allowed = { IsAllowed };

    fn step(&mut self, client: u8) -> StepAnswer {
        self.keeps_run();
        World::step(self, client)
    }

    fn places(&self) -> u32 {
        self.schedule.len() as u32
    }
}

/// The command of a client after so many that are done.
fn next_command(script: &Script, client: u8, done: u32) -> Option<&Command>
    requires low { 1 ≤ client }
    requires high { client ≤ length script.now.clients }
    ensures { option_copied result ≡ command_after script.now client done }
{
    script.commands(client).get(done as usize)
}

fn put_place(schedule: &mut Vec<u8>, client: u8)
    requires { vec_len schedule.old < vec_capacity schedule.old }
    ensures { schedule.new.items ≡ schedule.old.items ++ client ∷ [] }
{
    let _ = schedule.push(client);
}
