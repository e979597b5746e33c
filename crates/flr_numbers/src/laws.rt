//! What holds of every run for whose steps there is room.

ghost use Rattle.flr_numbers.specs.Laws.{RunsFit, RunsHold, StartHolds, StepsFit, StepsHold};

/// Before any step everybody holds what he is to, and each step for which there is room leaves it so.
/// So after each run that had room everybody does.
pub fn everybody_holds_what_is_his()
    ensures start { StartHolds }
    ensures steps { StepsHold }
    ensures runs { RunsHold }
{}

/// In each such state in which there is room the next step of each client finds whatever it asks for,
/// of its command and of the servers.
pub fn each_step_finds_what_it_wants()
    ensures steps { StepsFit }
    ensures runs { RunsFit }
{}
