//! The call that a command is.

ghost use Rattle.std.specs.Prelude.{◌≡◌, ◌≢◌, IfOk, OnErr};
ghost use Rattle.layout_lease.specs.Clients.{IsClient};
ghost use Rattle.meta_server.specs.Conditions.{IsCopyOf};
ghost use Rattle.resync_copy.specs.Copies.{new_copy};
ghost use Rattle.flr_steps.specs.Commands.{begun, begun_lfs};
ghost use Rattle.flr_steps.specs.Conditions.{IsAskable, IsLfsAskable};
ghost use Rattle.flr_steps.specs.declared.client.Running.TheVariants as running;

use client_read::ReadCall;
use client_write::{TruncateCall, WriteCall};
use flr_base::{Ids, Name, NoMemory};
use flr_steps::Running;
use lfs_words::LfsCommand;
use meta_server::CopyWhat;
use mirror_verify::VerifyCall;
use resync_copy::CopyCall;
use script_values::Command;
use std::alloc::Global;

/// The call that a command is, before its first step. A command of one step is none.
pub(crate) fn begin(alloc: Global, client: u8, command: &Command) -> Result<Running, NoMemory>
    requires client { IsClient client }
    requires askable { IsAskable command.now }
    ensures call { IfOk result (λ call. call ≡ begun client command.now) }
    ensures free { OnErr result (begun client command.now ≢ running.Idle) }
{
    match command {
        Command::Read {
            name,
            offset,
            length,
        } => {
            let name = name.copy()?;
            let call = ReadCall::new(alloc, client, name, *offset, *length);
            Ok(Running::Read(call))
        }
        Command::Write {
            name,
            offset,
            bytes,
        } => {
            let name = name.copy()?;
            let bytes = bytes.copy()?;
            let call = WriteCall::new(alloc, client, name, *offset, bytes);
            Ok(Running::Write(call))
        }
        Command::Truncate { name, size } => {
            let name = name.copy()?;
            let call = TruncateCall::new(alloc, client, name, *size);
            Ok(Running::Truncate(call))
        }
        Command::Lfs(command) => begin_lfs(alloc, client, command),
        Command::Evict { .. } => Ok(Running::Idle),
        Command::Rot { .. } => Ok(Running::Idle),
    }
}

fn begin_lfs(alloc: Global, client: u8, command: &LfsCommand) -> Result<Running, NoMemory>
    requires client { IsClient client }
    requires askable { IsLfsAskable command.now }
    ensures call { IfOk result (λ call. call ≡ begun_lfs client command.now) }
    ensures free { OnErr result (begun_lfs client command.now ≢ running.Idle) }
{
    match command {
        LfsCommand::Resync { name, only } => {
            let only = copy_ids(only)?;
            begin_copy(alloc, client, name, CopyWhat::Resync { only })
        }
        LfsCommand::Extend { name, spec } => {
            let spec = spec.copy()?;
            begin_copy(alloc, client, name, CopyWhat::Extend { spec })
        }
        LfsCommand::ExtendBy { name, victim } => {
            let victim = victim.copy()?;
            begin_copy(alloc, client, name, CopyWhat::Victim { name: victim })
        }
        LfsCommand::Verify { name } => {
            let name = name.copy()?;
            Ok(Running::Verify(VerifyCall::new(alloc, client, name)))
        }
        LfsCommand::SetStripe { .. } => Ok(Running::Idle),
        LfsCommand::GetStripe { .. } => Ok(Running::Idle),
        LfsCommand::CompSet { .. } => Ok(Running::Idle),
        LfsCommand::Create { .. } => Ok(Running::Idle),
        LfsCommand::Split { .. } => Ok(Running::Idle),
        LfsCommand::Delete { .. } => Ok(Running::Idle),
    }
}

fn begin_copy(alloc: Global, client: u8, name: &Name, what: CopyWhat) -> Result<Running, NoMemory>
    requires client { IsClient client }
    requires asked { IsCopyOf name.now what }
    ensures { IfOk result (λ call. call ≡ running.Copy (new_copy client name.now what)) }
{
    let name = name.copy()?;
    Ok(Running::Copy(CopyCall::new(alloc, client, name, what)))
}

fn copy_ids(ids: &Option<Ids>) -> Result<Option<Ids>, NoMemory>
    ensures { IfOk result (λ copy. copy ≡ ids.now) }
{
    match ids {
        Some(ids) => Ok(Some(ids.copy()?)),
        None => Ok(None),
    }
}
