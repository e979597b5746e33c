//! The work of a script.

ghost use Rattle.std.specs.Prelude.{◌≡◌, ◌+◌, ◌≤◌};
ghost use Rattle.composite_layout.specs.Making.{stripes_of};
ghost use Rattle.script_values.specs.Scripts.{all_commands, work_of};
ghost use Rattle.script_values.specs.Work.{capped, capped_reach, blocks_of, greatest_end, stripes_of_parts, stripes_of_mirrors, reach_of, base_of_range, base_of_copy, base_of_verify, base_of_lfs, work_of_parts};

use crate::command::{Command, Commands};
use crate::measure::{Measure, greatest_of, sum_of};
use crate::script::Script;
use composite_layout::{MirrorSpec, Part};
use lfs_words::LfsCommand;

/// Where a file ends at most.
const MOST_END: u64 = 268435456;

/// The bytes of a block.
const BLOCK: u64 = 65536;

/// What the bases of a script's commands depend on: how many mirrors a file may have, the stripes of
/// all components that the commands name, and the blocks of the longest file.
#[derive(Clone, Copy, Debug)]
pub(crate) struct Reach {
    pub(crate) mirrors: u8,
    pub(crate) stripes: u64,
    pub(crate) blocks: u32,
}

/// The bytes that a command reads or writes.
#[derive(Clone, Copy)]
pub(crate) struct Bytes;

impl Measure for Bytes {
    ghost use Rattle.script_values.specs.Scripts.{bytes_of};

    ghost measure = { λ _ command. bytes_of command };

    fn of(&self, command: &Command) -> u64 {
        match command {
            Command::Read { length, .. } => u64::from(*length),
            Command::Write { bytes, .. } => bytes.len() as u64,
            _ => 0,
        }
    }
}

/// Where a command makes a file end, at least.
#[derive(Clone, Copy)]
struct End;

impl Measure for End {
    ghost use Rattle.script_values.specs.Work.{end_of};

    ghost measure = { λ _ command. end_of command };

    fn of(&self, command: &Command) -> u64 {
        match command {
            Command::Write { offset, bytes, .. } => offset.saturating_add(bytes.len() as u64),
            Command::Truncate { size, .. } => *size,
            _ => 0,
        }
    }
}

/// The stripes of a component over so many targets.
fn stripes_over(targets: u8, count: i32) -> u64
    ensures { result ≡ stripes_of targets count }
{
    if count < 0 {
        u64::from(targets)
    } else {
        u64::from(targets).min(count as u64)
    }
}

fn add_parts(start: u64, targets: u8, parts: &[Part]) -> u64
    ensures { result ≡ capped (start + stripes_of_parts targets parts.now) }
{
    let mut sum = start;
    for part in parts {
        sum = sum.saturating_add(stripes_over(targets, part.count));
    }
    sum
}

fn stripes_of_mirrors(targets: u8, mirrors: &[MirrorSpec]) -> u64
    ensures { result ≡ capped (stripes_of_mirrors targets mirrors.now) }
{
    let mut sum = 0;
    for mirror in mirrors {
        sum = add_parts(sum, targets, mirror.parts.as_slice());
    }
    sum
}

/// The stripes of the components that a command names, over so many targets.
#[derive(Clone, Copy)]
struct Stripes {
    targets: u8,
}

impl Measure for Stripes {
    ghost use Rattle.script_values.specs.Work.{stripes_of_command};

    ghost measure = { λ stripes command. stripes_of_command stripes.targets command };

    fn of(&self, command: &Command) -> u64 {
        match command {
            Command::Lfs(LfsCommand::SetStripe { spec, .. }) => stripes_of_mirrors(
                self.targets,
                spec.mirrors(),
            ),
            Command::Lfs(LfsCommand::Create { spec, .. }) => stripes_of_mirrors(
                self.targets,
                spec.mirrors(),
            ),
            Command::Lfs(LfsCommand::Extend { spec, .. }) => stripes_of_mirrors(
                self.targets,
                spec.mirrors(),
            ),
            _ => 0,
        }
    }
}

/// Counts the commands that evict somebody.
#[derive(Clone, Copy)]
struct Evictions;

impl Measure for Evictions {
    ghost use Rattle.script_values.specs.Work.{evictions_of};

    ghost measure = { λ _ command. evictions_of command };

    fn of(&self, command: &Command) -> u64 {
        match command {
            Command::Evict { .. } => 1,
            _ => 0,
        }
    }
}

fn base_of_range(offset: u64, length: u64) -> u64
    ensures { result ≡ base_of_range offset length }
{
    let blocks = (u128::from(offset % BLOCK) + u128::from(length) + 65535) / 65536;
    2 * blocks as u64 + 3
}

fn base_of_copy(reach: Reach) -> u64
    ensures { result ≡ capped (base_of_copy reach) }
{
    let copied = 2 * u64::from(reach.mirrors.saturating_sub(1)) * u64::from(reach.blocks);
    reach.stripes.saturating_add(3 + copied)
}

fn base_of_verify(reach: Reach) -> u64
    ensures { result ≡ base_of_verify reach }
{
    2 + u64::from(reach.mirrors) * u64::from(reach.blocks)
}

fn base_of_lfs(reach: Reach, command: &LfsCommand) -> u64
    ensures { result ≡ capped (base_of_lfs reach command.now) }
{
    match command {
        LfsCommand::Resync { .. } => base_of_copy(reach),
        LfsCommand::Extend { .. } => base_of_copy(reach),
        LfsCommand::ExtendBy { .. } => base_of_copy(reach),
        LfsCommand::Verify { .. } => base_of_verify(reach),
        _ => 1,
    }
}

/// The base of a command.
#[derive(Clone, Copy)]
struct Base {
    reach: Reach,
}

impl Measure for Base {
    ghost use Rattle.script_values.specs.Work.{base_of};

    ghost measure = { λ base command. base_of base.reach command };

    fn of(&self, command: &Command) -> u64 {
        match command {
            Command::Read { offset, length, .. } => base_of_range(*offset, u64::from(*length)),
            Command::Write { offset, bytes, .. } => base_of_range(*offset, bytes.len() as u64),
            Command::Truncate { .. } => self.reach.stripes.saturating_add(4),
            Command::Lfs(command) => base_of_lfs(self.reach, command),
            Command::Evict { .. } => 1,
            Command::Rot { .. } => 1,
        }
    }
}

/// How many blocks the longest file has.
fn blocks_of_longest(clients: &[Commands]) -> u32
    ensures { result ≡ blocks_of 0 (greatest_end (all_commands clients.now)) }
{
    let end = greatest_of(&End, clients).min(MOST_END);
    ((end + (BLOCK - 1)) / BLOCK) as u32
}

fn reach_of(most: u8, targets: u8, clients: &[Commands]) -> Reach
    ensures { result ≡ capped_reach (reach_of most targets (all_commands clients.now)) }
{
    Reach {
        mirrors: most,
        stripes: sum_of(&Stripes { targets }, clients),
        blocks: blocks_of_longest(clients),
    }
}

/// The work of a script with these commands and so many calls that are listed to fail.
pub(crate) fn work_of_parts(most: u8, targets: u8, fails: u64, clients: &[Commands]) -> u64
    ensures { result ≡ capped (work_of_parts most targets fails (all_commands clients.now)) }
{
    let base = Base {
        reach: reach_of(most, targets, clients),
    };
    let sum = sum_of(&base, clients);
    let disturbed = fails.saturating_add(sum_of(&Evictions, clients));
    sum.saturating_add(disturbed.saturating_mul(greatest_of(&base, clients)))
}

/// The work of the script: the bound on the steps of its runs. Each command has a base, the steps that
/// it needs at most where nothing fails and nobody is evicted. The bases are added, and the greatest of
/// them once more for each call that is listed to fail and for each eviction.
pub fn work(script: &Script) -> u64
    ensures work { result ≡ work_of script.now }
    ensures few { result ≤ 8388608 }
{
    let fails = script.fails().len() as u64;
    work_of_parts(script.most(), script.targets(), fails, script.all())
}
