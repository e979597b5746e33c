use flr_world::World;
use script_text::read_script;
use std::alloc::Global;

/// One client, which makes a file, writes and reads it: 11 steps.
pub const ONE: &[u8] = b"flr-script 1
targets 1
client 1
lfs setstripe /a
write /a 0 61*1+62*1+63*1
read /a 0 3
";

/// Two such clients, each with a file of its own.
pub const TWO: &[u8] = b"flr-script 1
targets 1
client 1
lfs setstripe /a
write /a 0 61*1+62*1+63*1
read /a 0 3
client 2
lfs setstripe /b
write /b 0 64*1
read /b 0 1
";

/// The world of a script before any step. `None` where that is no script, or memory ran out.
pub fn world_of(alloc: Global, text: &[u8]) -> Option<World> {
    let script = read_script(alloc, text).ok()?;
    World::start(alloc, script).ok()
}
