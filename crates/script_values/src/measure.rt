//! Sums and greatest values over the commands of all clients.

ghost use Rattle.std.specs.Prelude.{◌≡◌, ◌+◌, max};
ghost use Rattle.std.specs.List.{sum_by};
ghost use Rattle.script_values.specs.Scripts.{all_commands};
ghost use Rattle.script_values.specs.Work.{greatest_by, capped};

use crate::command::{Command, Commands};

/// A number that each command has. What is too great for 64 bits stands still at their end.
pub(crate) trait Measure {
    ghost use Rattle.std.specs.Prelude.{◌≡◌, ℕ};
    ghost use Rattle.script_values.specs.declared.command.Command.{Command};
    ghost use Rattle.script_values.specs.Work.{capped};

    // the number of a command
    ghost measure: { Self → Command → ℕ };

    fn of(&self, command: &Command) -> u64
        ensures { result ≡ capped (measure self.now command.now) };
}

fn add_all<M: Measure>(measure: &M, start: u64, commands: &[Command]) -> u64
    ensures { result ≡ capped (start + sum_by (M.measure measure.now) commands.now) }
{
    let mut sum = start;
    for command in commands {
        sum = sum.saturating_add(measure.of(command));
    }
    sum
}

/// The sum over the commands of all clients.
pub(crate) fn sum_of<M: Measure>(measure: &M, clients: &[Commands]) -> u64
    ensures { result ≡ capped (sum_by (M.measure measure.now) (all_commands clients.now)) }
{
    let mut sum = 0;
    for own in clients {
        sum = add_all(measure, sum, own.as_slice());
    }
    sum
}

fn greatest_from<M: Measure>(measure: &M, start: u64, commands: &[Command]) -> u64
    ensures { result ≡ max start (capped (greatest_by (M.measure measure.now) commands.now)) }
{
    let mut most = start;
    for command in commands {
        most = most.max(measure.of(command));
    }
    most
}

/// The greatest number that a command of some client has, 0 where there is no command.
pub(crate) fn greatest_of<M: Measure>(measure: &M, clients: &[Commands]) -> u64
    ensures { result ≡ capped (greatest_by (M.measure measure.now) (all_commands clients.now)) }
{
    let mut most = 0;
    for own in clients {
        most = greatest_from(measure, most, own.as_slice());
    }
    most
}
