ghost use Rattle.std.specs.Prelude.{◌≡◌, true};
ghost use Rattle.meta_server.specs.Conditions.{HasGenerationRoom, IsRoom};
ghost use Rattle.meta_server.specs.Files.{file_named};
ghost use Rattle.mirror_admin.specs.OneStep.{Comes, is_one_step, one_step, shows};

use crate::answer::Admin;
use crate::split::{delete, split};
use flr_base::{Name, Reply};
use layout_text::print_layout;
use lfs_words::LfsCommand;
use meta_server::Meta;
use std::alloc::Global;

/// Makes the only step of a client's `lfs` command, at this place: `setstripe` with its change of
/// flags, `getstripe`, `mirror create`, `split` and `delete`.
///
/// The refusals that need no exclusive lock come before `Blocked`, in the order of the metadata
/// server's calls. A refusal, a blocked command and one for which memory runs out change nothing.
pub fn admin(alloc: Global, client: u8, command: &LfsCommand, meta: &mut Meta, step: u32) -> Admin
    requires one_step { is_one_step command.now ≡ true }
    requires room { IsRoom meta.old.next_file }
    requires generations { HasGenerationRoom meta.old }
    ensures came { Comes (one_step client command.now step meta.old) meta.old result meta.new }
{
    match command {
        LfsCommand::SetStripe { name, spec } | LfsCommand::Create { name, spec } => {
            match meta.create(name, spec) {
                Ok(()) => Admin::Answered(Reply::Created),
                Err(stop) => Admin::from(stop),
            }
        }
        LfsCommand::GetStripe { name } => show(alloc, name, meta),
        LfsCommand::CompSet { name, id, change } => {
            match meta.set(client, name, *id, *change, step) {
                Ok(()) => Admin::Answered(Reply::Set),
                Err(stop) => Admin::from(stop),
            }
        }
        LfsCommand::Split { name, mirror, to } => {
            split(alloc, client, name, *mirror, to, meta, step)
        }
        LfsCommand::Delete { name, mirror } => delete(client, name, *mirror, meta, step),
        LfsCommand::Extend { .. } => unreachable!(),
        LfsCommand::ExtendBy { .. } => unreachable!(),
        LfsCommand::Resync { .. } => unreachable!(),
        LfsCommand::Verify { .. } => unreachable!(),
    }
}

/// Shows the layout of the file of this name.
fn show(alloc: Global, name: &Name, meta: &Meta) -> Admin
    ensures { Comes (shows name.now meta.now (file_named name.now meta.now.files)) meta.now result meta.now }
{
    match meta.layout_of(name) {
        Some(layout) => match print_layout(alloc, layout) {
            Ok(text) => Admin::Answered(Reply::Layout(text)),
            Err(_) => Admin::NoMemory,
        },
        None => match name.copy() {
            Ok(name) => Admin::Answered(Reply::NoFile(name)),
            Err(_) => Admin::NoMemory,
        },
    }
}
