//! The scripts that a generator of numbers makes.

ghost use Rattle.std.specs.Prelude.{◌≡◌, ◌+◌, ◌++◌, ◌∷◌, [], ◌<◌, ◌≤◌, ◌^◌, IfOk, OnOk};
ghost use Rattle.script_values.specs.Generator.{drawn_write, drawn_read, drawn_by, drawn_command, drawn_commands, drawn_clients, file, mirror, create, resync, verify, with_first, script_from, state_from};

use crate::command::{Command, Commands};
use crate::generator::Generator;
use crate::script::{Clients, Fails, Script};
use composite_layout::{MirrorSpec, MirrorSpecs, Part, Parts, Spec};
use flr_base::{EOF, Name, NoMemory, Octets};
use lfs_words::LfsCommand;
use std::alloc::Global;

/// The one file of the scripts.
fn file(alloc: Global) -> Result<Name, NoMemory>
    ensures { IfOk result (λ name. name ≡ file) }
{
    Ok(Name::from_vec(Vec::from_slice(alloc, b"/s")?))
}

#[tactic(auto, unfolding(crate::specs::Generator::drawn_write))]
fn draw_write(alloc: Global, generator: &mut Generator) -> Result<Command, NoMemory>
    ensures command { IfOk result (λ command. command ≡ (drawn_write generator.old).command) }
    ensures state { OnOk result (generator.new ≡ (drawn_write generator.old).state) }
{
    let offset = 32 * u64::from(generator.draw());
    let length = 1 + generator.draw() % 4096;
    let byte = (generator.draw() % 256) as u8;
    let name = file(alloc)?;
    let bytes = Octets::from_vec(Vec::from_elem(alloc, byte, length as usize)?);
    Ok(Command::Write {
        name,
        offset,
        bytes,
    })
}

#[tactic(auto, unfolding(crate::specs::Generator::drawn_read))]
fn draw_read(alloc: Global, generator: &mut Generator) -> Result<Command, NoMemory>
    ensures command { IfOk result (λ command. command ≡ (drawn_read generator.old).command) }
    ensures state { OnOk result (generator.new ≡ (drawn_read generator.old).state) }
{
    let offset = 32 * u64::from(generator.draw());
    let length = 1 + generator.draw() % 4096;
    let name = file(alloc)?;
    Ok(Command::Read {
        name,
        offset,
        length,
    })
}

fn resync(alloc: Global) -> Result<Command, NoMemory>
    ensures { IfOk result (λ command. command ≡ resync) }
{
    let name = file(alloc)?;
    Ok(Command::Lfs(LfsCommand::Resync { name, only: None }))
}

fn verify(alloc: Global) -> Result<Command, NoMemory>
    ensures { IfOk result (λ command. command ≡ verify) }
{
    let name = file(alloc)?;
    Ok(Command::Lfs(LfsCommand::Verify { name }))
}

#[tactic(auto, unfolding(crate::specs::Generator::drawn_by))]
fn draw_by(alloc: Global, kind: u32, generator: &mut Generator) -> Result<Command, NoMemory>
    ensures command { IfOk result (λ command. command ≡ (drawn_by kind generator.old).command) }
    ensures state { OnOk result (generator.new ≡ (drawn_by kind generator.old).state) }
{
    if kind < 4 {
        return draw_write(alloc, generator);
    }
    if kind < 6 {
        return draw_read(alloc, generator);
    }
    if kind == 6 {
        return resync(alloc);
    }
    verify(alloc)
}

#[tactic(auto, unfolding(crate::specs::Generator::drawn_command))]
fn draw_command(alloc: Global, generator: &mut Generator) -> Result<Command, NoMemory>
    ensures command { IfOk result (λ command. command ≡ (drawn_command generator.old).command) }
    ensures state { OnOk result (generator.new ≡ (drawn_command generator.old).state) }
{
    let kind = generator.draw() % 8;
    draw_by(alloc, kind, generator)
}

/// Appends so many commands.
fn draw_commands(
    alloc: Global,
    generator: &mut Generator,
    out: &mut Commands,
    calls: u8,
) -> Result<(), NoMemory>
    ensures commands { OnOk result (out.new ≡ out.old ++ (drawn_commands calls generator.old).commands) }
    ensures state { OnOk result (generator.new ≡ (drawn_commands calls generator.old).state) }
{
    for _ in 0..calls {
        let command = draw_command(alloc, generator)?;
        out.push(command)?;
    }
    Ok(())
}

/// A mirror of one component over two stripes of 64 KiB.
fn mirror(alloc: Global) -> Result<MirrorSpec, NoMemory>
    ensures { IfOk result (λ made. made ≡ mirror) }
{
    let mut parts = Parts::new(alloc);
    parts.push(Part {
        end: EOF,
        size: 65536,
        count: 2,
    })?;
    Ok(MirrorSpec {
        parts,
        prefer: false,
    })
}

/// The command that makes the file with two mirrors.
fn create(alloc: Global) -> Result<Command, NoMemory>
    ensures { IfOk result (λ command. command ≡ create) }
{
    let mut mirrors = MirrorSpecs::new(alloc);
    mirrors.push(mirror(alloc)?)?;
    mirrors.push(mirror(alloc)?)?;
    let Ok(spec) = Spec::of(alloc, mirrors, 16) else {
        return Err(NoMemory);
    };
    let name = file(alloc)?;
    Ok(Command::Lfs(LfsCommand::Create { name, spec }))
}

/// The commands of so many clients. Client 1 makes the file first.
fn draw_clients(
    alloc: Global,
    generator: &mut Generator,
    clients: u8,
    calls: u8,
) -> Result<Clients, NoMemory>
    requires { 0 < clients }
    ensures clients { IfOk result (λ all. all ≡ with_first create (drawn_clients clients calls generator.old).clients) }
    ensures state { OnOk result (generator.new ≡ (drawn_clients clients calls generator.old).state) }
{
    let mut first = Commands::new(alloc);
    first.push(create(alloc)?)?;
    draw_commands(alloc, generator, &mut first, calls)?;
    let mut all = Clients::new(alloc);
    all.push(first)?;
    for _ in 1..clients {
        let mut own = Commands::new(alloc);
        draw_commands(alloc, generator, &mut own, calls)?;
        all.push(own)?;
    }
    Ok(all)
}

/// The script that the generator's next numbers make: 4 targets, no call that fails, and so many
/// clients. Client 1 makes a file of two mirrors. Then each client in its turn has so many commands on
/// it, of which half are writes and a quarter reads.
pub fn draw_script(
    alloc: Global,
    generator: &mut Generator,
    clients: u8,
    calls: u8,
) -> Result<Script, NoMemory>
    requires clients { (1 ≤ clients) × (clients ≤ 16) }
    requires calls { 1 ≤ calls }
    ensures script { IfOk result (λ script. script ≡ script_from clients calls generator.old) }
    ensures state { OnOk result (generator.new ≡ state_from clients calls generator.old) }
{
    let clients = draw_clients(alloc, generator, clients, calls)?;
    Ok(Script::within(16, 4, Fails::new(alloc), clients))
}

/// The script of a generator with this seed.
pub fn make_script(alloc: Global, seed: u32, clients: u8, calls: u8) -> Result<Script, NoMemory>
    requires seed { seed < 2 ^ 31 }
    requires clients { (1 ≤ clients) × (clients ≤ 16) }
    requires calls { 1 ≤ calls }
    ensures script { IfOk result (λ script. script ≡ script_from clients calls seed) }
{
    let mut generator = Generator::new(seed);
    draw_script(alloc, &mut generator, clients, calls)
}
