//! A step of a running call, or of a command of one step.

ghost use Rattle.std.specs.Prelude.{◌≡◌};
ghost use Rattle.call_steps.specs.Servers.{servers};
ghost use Rattle.call_steps.specs.Steps.{HasMemory, Steps};
ghost use Rattle.client_step.specs.Free.{CallIsFree};
ghost use Rattle.flr_steps.specs.Commands.{begun, step_of};
ghost use Rattle.flr_steps.specs.Conditions.{CallFits, IsAskable};
ghost use Rattle.flr_steps.specs.declared.client.Running.TheVariants as running;

use crate::one_step::at_once;
use crate::widening::widened;
use extent_lock::ExtentLocks;
use flr_base::Progress;
use flr_steps::Running;
use meta_server::Meta;
use object_target::Targets;
use script_values::Command;
use std::alloc::Global;

/// Makes the next step of this call, or the only one of the command, at this place.
pub(crate) fn step_call(
    alloc: Global,
    call: Running,
    client: u8,
    command: &Command,
    place: u32,
    meta: &mut Meta,
    targets: &mut Targets,
    locks: &mut ExtentLocks,
) -> Progress<Running>
    requires one_step { call ≡ running.Idle → begun client command.now ≡ running.Idle }
    requires askable { IsAskable command.now }
    requires fits { CallFits call command.now (servers meta.old targets.old locks.old) }
    ensures step { Steps call (servers meta.old targets.old locks.old) result (servers meta.new targets.new locks.new) (step_of call client command.now place (servers meta.old targets.old locks.old)) }
    ensures free { CallIsFree call client command.now place (servers meta.old targets.old locks.old) → HasMemory result }
{
    match call {
        Running::Idle => at_once(alloc, client, command, place, meta, targets),
        Running::Read(call) => widened(call.step(meta, targets, locks, place)),
        Running::Write(call) => widened(call.step(meta, targets, locks, place)),
        Running::Truncate(call) => widened(call.step(meta, targets, locks, place)),
        Running::Copy(call) => widened(call.step(meta, targets, locks, place)),
        Running::Verify(call) => widened(call.step(meta, targets, place)),
    }
}
