//! What holds in every run.

ghost use Rattle.flr_runs.specs.Laws.{EverybodyHolds, NextStepsFit, RunsAreShort, RunsHaveRoom, RunsLeaveRoom};

/// A run has at most as many steps as its script has work.
pub fn runs_are_short()
    ensures short { RunsAreShort }
{}

/// After every run the next number of whatever is made, and every generation, leaves the room that the calls
/// of the servers want. So what is proved of runs that leave room is so of every run.
pub fn runs_have_room()
    ensures room { RunsHaveRoom }
    ensures leave { RunsLeaveRoom }
{}

/// After every run everybody holds what he is to: cookies, keys and extent locks are those of the calls that
/// run, and no version passes the generation of its file.
pub fn everybody_always_holds_what_is_his()
    ensures holds { EverybodyHolds }
{}

/// After every run the next step of each client finds whatever it asks for, of its command and of the servers.
pub fn each_next_step_finds_what_it_wants()
    ensures fits { NextStepsFit }
{}
