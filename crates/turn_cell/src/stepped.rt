//! What the value of a cell is asked for.
ghost use Rattle.std.specs.Prelude.{◌≡◌, ◌^◌, ◌<◌, length};
ghost use Rattle.turn_cell.specs.Schedules.{schedule_after};

/// What a value answers to a client that is to make a step.
#[derive(Clone, Copy, Debug, PartialEq, Eq)]
pub enum StepAnswer {
    /// The step was made.
    Stepped,
    /// The client `holder` is in the way. No step was made.
    Blocked { holder: u8 },
    /// The client has no command left.
    Finished,
    /// There is no such client.
    Unknown,
    /// Memory ran out. No step was made.
    NoMemory,
}

/// A value that makes one step at a time. Its meaning is a schedule, an origin that no step changes,
/// and which answers are allowed at an origin, after a schedule, to a client.
pub trait Stepped: Drop {
    ghost use Rattle.std.specs.Prelude.{ℕ, List};
    ghost use Rattle.turn_cell.specs.declared.stepped.StepAnswer.{StepAnswer};

    /// What the value began from.
    type Origin;

    // The clients that stepped, in order.
    ghost schedule: { Self → List ℕ };

    // What the value began from, which no step changes.
    ghost origin: { Self → Self.Origin };

    // Whether the answer is allowed at this origin, after this schedule, to this client.
    ghost allowed: { Self.Origin → List ℕ → ℕ → StepAnswer → Type 0 };

    /// Has the client make its next step. The answer is one that is allowed for the schedule before
    /// it. A step appends the client to the schedule, and every other answer leaves the schedule.
    fn step(&mut self, client: u8) -> StepAnswer
        ensures allowed { allowed (origin self.old) (schedule self.old) client result }
        ensures schedule { schedule self.new ≡ schedule_after (schedule self.old) client result }
        ensures origin { origin self.new ≡ origin self.old }
        ensures few { length (schedule self.new) < 2 ^ 32 };

    /// How many places the schedule has, which are never more than 4294967295.
    fn places(&self) -> u32
        ensures count { result ≡ length (schedule self.now) };
}
