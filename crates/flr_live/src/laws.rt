//! What holds of clients that wait, in every run.

ghost use Rattle.flr_live.specs.Laws.{EachRunCanEnd, EachWaitEnds, NeverStuck, NoCircles};

/// After every run of every script, while some client has a command left, some client can make its next step.
pub fn never_stuck()
    ensures steps { NeverStuck }
{}

/// Whoever needs a layout alone, or that nobody writes to an object, waits for a client that has the file open
/// or holds an extent lock. Such a one can step, or asks for extent locks itself; and who asks for the lock of a
/// piece waits for one that can step, or that asks for a piece further on in its file. So from each client that
/// has a command left those who wait for one another lead to one that can make its next step, and no clients
/// ever wait for one another in a circle.
pub fn each_wait_ends()
    ensures ends { EachWaitEnds }
    ensures circles { NoCircles }
{}

/// As no run is longer than its script's work, every run can be led to a state in which no client has a command
/// left: some client that can step is there until then.
pub fn each_run_can_end()
    ensures ends { EachRunCanEnd }
{}
