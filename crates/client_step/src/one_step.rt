//! Commands of one step.

ghost use Rattle.std.specs.Prelude.{◌≡◌, [], true, List};
ghost use Rattle.flr_base.specs.declared.reply.Progress.TheVariants as progress;
ghost use Rattle.meta_server.specs.Conditions.{HasGenerationRoom, IsRoom};
ghost use Rattle.mirror_admin.specs.OneStep.{is_one_step, one_step};
ghost use Rattle.extent_lock.specs.declared.lock.Lock.{Lock};
ghost use Rattle.object_target.specs.TargetState.{TargetState};
ghost use Rattle.call_steps.specs.Servers.{servers};
ghost use Rattle.call_steps.specs.Steps.{HasMemory, Steps};
ghost use Rattle.client_step.specs.Free.{OneStepIsFree};
ghost use Rattle.meta_server.specs.Outcomes.{MayLackMemory};
ghost use Rattle.flr_steps.specs.Commands.{answered_by, at_once, begun};
ghost use Rattle.flr_steps.specs.Conditions.{AtOnceFits, IsAskable};
ghost use Rattle.flr_steps.specs.declared.client.Running.TheVariants as running;

use flr_base::{Progress, Reply, Takes};
use flr_steps::Running;
use lfs_words::LfsCommand;
use meta_server::Meta;
use mirror_admin::{Admin, admin, evict, rot};
use object_target::Targets;
use script_values::Command;
use std::alloc::Global;

/// Makes the only step of a command, at this place.
pub(crate) fn at_once(
    alloc: Global,
    client: u8,
    command: &Command,
    place: u32,
    meta: &mut Meta,
    targets: &mut Targets,
) -> Progress<Running>
    requires one_step { begun client command.now ≡ running.Idle }
    requires askable { IsAskable command.now }
    requires fits { AtOnceFits command.now meta.old targets.old }
    ensures step { (locks : List Lock) → Steps running.Idle (servers meta.old targets.old locks) result (servers meta.new targets.new locks) (at_once client command.now place (servers meta.old targets.old locks)) }
    ensures free { (locks : List Lock) → OneStepIsFree client command.now place (servers meta.old targets.old locks) → HasMemory result }
{
    match command {
        Command::Lfs(command) => administer(alloc, client, command, place, meta),
        Command::Evict { client: other } => answered(alloc, evict(*other, meta, place)),
        Command::Rot {
            object,
            offset,
            byte,
        } => match rot(targets, *object, *offset, *byte) {
            Ok(reply) => answered(alloc, reply),
            Err(_) => Progress::NoMemory(Running::Idle),
        },
        Command::Read { .. } => unreachable!(),
        Command::Write { .. } => unreachable!(),
        Command::Truncate { .. } => unreachable!(),
    }
}

/// Makes the only step of an `lfs` command.
fn administer(
    alloc: Global,
    client: u8,
    command: &LfsCommand,
    place: u32,
    meta: &mut Meta,
) -> Progress<Running>
    requires one_step { is_one_step command.now ≡ true }
    requires room { IsRoom meta.old.next_file }
    requires generations { HasGenerationRoom meta.old }
    ensures step { (targets : List TargetState) (locks : List Lock) → Steps running.Idle (servers meta.old targets locks) result (servers meta.new targets locks) (answered_by (servers meta.old targets locks) (one_step client command.now place meta.old)) }
    ensures free { ¬ MayLackMemory (one_step client command.now place meta.old) → HasMemory result }
{
    match admin(alloc, client, command, meta, place) {
        Admin::Answered(reply) => answered(alloc, reply),
        Admin::Blocked { holder } => Progress::Blocked {
            call: Running::Idle,
            holder,
        },
        Admin::NoMemory => Progress::NoMemory(Running::Idle),
    }
}

/// The only step of a command answers this.
fn answered(alloc: Global, reply: Reply) -> Progress<Running>
    ensures { result ≡ progress.Answered reply [] }
{
    Progress::Answered {
        reply,
        takes: Takes::new(alloc),
    }
}
