ghost use Rattle.std.specs.Prelude.{◌≡◌, ◌↔◌, false, Some, IfOk, OnOk, OnErr, IsTrue};
ghost use Rattle.layout_lease.specs.Clients.{IsClient};
ghost use Rattle.call_steps.specs.Servers.{servers};
ghost use Rattle.flr_steps.specs.Clients.{call_now, client_next};
ghost use Rattle.flr_steps.specs.Conditions.{IsAskable, StepFits};
ghost use Rattle.flr_steps.specs.States.{new_client};
ghost use Rattle.flr_steps.specs.declared.client.Running.TheVariants as running;

use crate::answer::CallerAnswer;
use crate::beginning::begin;
use crate::stepping::step_call;
use extent_lock::ExtentLocks;
use flr_base::{Entry, NoMemory, Progress};
use flr_steps::{Client, Note, Running};
use meta_server::Meta;
use object_target::Targets;
use script_values::Command;
use std::alloc::Global;
use std::mem;

/// A client, and what is kept for it between its tries.
#[derive(Drop)]
pub struct Caller {
    /// The client as its state has it. Between two commands it is idle.
    pub client: Client,
    /// The call of its next command, where a try to begin it was blocked or wanted memory. So what the
    /// command asks for isn't copied again at the next try.
    pub aside: Running,
}

impl Caller {
    ghost use Rattle.client_step.specs.Callers.{ClientSteps, HasMoved, IsAside};
    ghost use Rattle.client_step.specs.Free.{CallIsFree, CopiesNothing, HadMemory};

    /// A client before its first step.
    pub fn new() -> Caller
        ensures client { result.client ≡ new_client }
        ensures aside { result.aside ≡ running.Idle }
    {
        Caller {
            client: Client {
                done: 0,
                first: 0,
                call: Running::Idle,
            },
            aside: Running::Idle,
        }
    }

    /// The client with this number makes its next step, at this place. It is one of the call that it
    /// has under way, or else of its next command, which is this one. What a command asks for is copied at
    /// the first try to begin it, which takes memory; from then on memory may be wanting only where the
    /// step of the call takes some.
    pub fn step(
        &mut self,
        alloc: Global,
        number: u8,
        place: u32,
        command: &Command,
        meta: &mut Meta,
        targets: &mut Targets,
        locks: &mut ExtentLocks,
    ) -> CallerAnswer
        requires fits { StepFits number self.old.client command.now (servers meta.old targets.old locks.old) }
        requires aside { IsAside number command.now self.old.client self.old.aside }
        ensures step { ClientSteps self.old.client (servers meta.old targets.old locks.old) result self.new.client (servers meta.new targets.new locks.new) (client_next number place self.old.client (servers meta.old targets.old locks.old) (Some command.now)) }
        ensures aside { IsAside number command.now self.new.client self.new.aside }
        ensures nothing { HasMoved result → self.new.aside ≡ running.Idle }
        ensures free { CopiesNothing number command.now self.old.client self.old.aside
            → CallIsFree (call_now number self.old.client.call command.now) number command.now place (servers meta.old targets.old locks.old)
            → HadMemory result }
    {
        let begins = is_idle(&self.client.call);
        let first = if begins { place } else { self.client.first };
        let Ok(call) = self.take_call(alloc, number, command) else {
            return CallerAnswer::NoMemory;
        };
        match step_call(alloc, call, number, command, place, meta, targets, locks) {
            Progress::Going(next) => {
                self.client.first = first;
                put(&mut self.client.call, next);
                CallerAnswer::Moved(Note::Nothing)
            }
            Progress::Fixed {
                call: next,
                reply,
                takes,
            } => {
                self.client.first = first;
                put(&mut self.client.call, next);
                CallerAnswer::Moved(Note::Adds(Entry {
                    client: number,
                    number: self.client.done + 1,
                    first,
                    at: place,
                    last: 0,
                    reply,
                    takes,
                }))
            }
            Progress::Ended => {
                self.client.first = first;
                self.client.done += 1;
                CallerAnswer::Moved(Note::Closes)
            }
            Progress::Answered { reply, takes } => {
                self.client.first = first;
                self.client.done += 1;
                CallerAnswer::Moved(Note::Adds(Entry {
                    client: number,
                    number: self.client.done,
                    first,
                    at: place,
                    last: place,
                    reply,
                    takes,
                }))
            }
            Progress::Blocked { call: back, holder } => {
                self.put_back(begins, back);
                CallerAnswer::Blocked { holder }
            }
            Progress::NoMemory(back) => {
                self.put_back(begins, back);
                CallerAnswer::NoMemory
            }
        }
    }

    /// Takes the call that steps now: the one under way, the one kept aside, or a new one.
    fn take_call(
        &mut self,
        alloc: Global,
        number: u8,
        command: &Command,
    ) -> Result<Running, NoMemory>
        requires client { IsClient number }
        requires askable { IsAskable command.now }
        requires aside { IsAside number command.now self.old.client self.old.aside }
        ensures call { IfOk result (λ call. call ≡ call_now number self.old.client.call command.now) }
        ensures taken { OnOk result (self.new ≡ record { client = record self.old.client { call = running.Idle }; aside = running.Idle }) }
        ensures unchanged { OnErr result (self.new ≡ self.old) }
        ensures free { OnErr result (¬ CopiesNothing number command.now self.old.client self.old.aside) }
    {
        match mem::replace(&mut self.client.call, Running::Idle) {
            Running::Idle => match mem::replace(&mut self.aside, Running::Idle) {
                Running::Idle => begin(alloc, number, command),
                call => Ok(call),
            },
            call => Ok(call),
        }
    }

    /// Puts a call back whose step wasn't made: aside, if it was to begin.
    fn put_back(&mut self, begins: bool, call: Running)
        requires idle { self.old.client.call ≡ running.Idle }
        requires nothing { self.old.aside ≡ running.Idle }
        ensures aside { IsTrue begins → self.new ≡ record self.old { aside = call } }
        ensures client { (begins ≡ false) → self.new ≡ record self.old { client = record self.old.client { call = call } } }
    {
        if begins {
            put(&mut self.aside, call);
        } else {
            put(&mut self.client.call, call);
        }
    }
}

/// Puts a call where none is.
fn put(place: &mut Running, call: Running)
    requires { place.old ≡ running.Idle }
    ensures { place.new ≡ call }
{
    match mem::replace(place, call) {
        Running::Idle => {}
        Running::Read(_) => unreachable!(),
        Running::Write(_) => unreachable!(),
        Running::Truncate(_) => unreachable!(),
        Running::Copy(_) => unreachable!(),
        Running::Verify(_) => unreachable!(),
    }
}

/// Whether no call is under way.
fn is_idle(call: &Running) -> bool
    ensures { IsTrue result ↔ (call.now ≡ running.Idle) }
{
    match call {
        Running::Idle => true,
        Running::Read(_) => false,
        Running::Write(_) => false,
        Running::Truncate(_) => false,
        Running::Copy(_) => false,
        Running::Verify(_) => false,
    }
}
