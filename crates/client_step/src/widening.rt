//! Calls of each kind as running calls.

ghost use Rattle.std.specs.Prelude.{◌≡◌};
ghost use Rattle.call_steps.specs.Steps.{widened};

use client_read::ReadCall;
use client_write::{TruncateCall, WriteCall};
use flr_base::Progress;
use flr_steps::Running;
use mirror_verify::VerifyCall;
use resync_copy::CopyCall;

/// A call that a client may have under way.
pub(crate) trait Call {
    ghost use Rattle.std.specs.Prelude.{◌≡◌};
    ghost use Rattle.flr_steps.specs.declared.client.Running.{Running};

    // it as a running call
    ghost as_running: { Self → Running };

    /// It as a running call.
    fn running(self) -> Running
        ensures { result ≡ as_running self };
}

impl Call for ReadCall {
    ghost use Rattle.flr_steps.specs.declared.client.Running.TheVariants as running;

    ghost as_running = { λ call. running.Read call };

    fn running(self) -> Running {
        Running::Read(self)
    }
}

impl Call for WriteCall {
    ghost use Rattle.flr_steps.specs.declared.client.Running.TheVariants as running;

    ghost as_running = { λ call. running.Write call };

    fn running(self) -> Running {
        Running::Write(self)
    }
}

impl Call for TruncateCall {
    ghost use Rattle.flr_steps.specs.declared.client.Running.TheVariants as running;

    ghost as_running = { λ call. running.Truncate call };

    fn running(self) -> Running {
        Running::Truncate(self)
    }
}

impl Call for CopyCall {
    ghost use Rattle.flr_steps.specs.declared.client.Running.TheVariants as running;

    ghost as_running = { λ call. running.Copy call };

    fn running(self) -> Running {
        Running::Copy(self)
    }
}

impl Call for VerifyCall {
    ghost use Rattle.flr_steps.specs.declared.client.Running.TheVariants as running;

    ghost as_running = { λ call. running.Verify call };

    fn running(self) -> Running {
        Running::Verify(self)
    }
}

/// What the step of a call came to, of running calls.
pub(crate) fn widened<C: Call>(came: Progress<C>) -> Progress<Running>
    ensures { result ≡ widened C.as_running came }
{
    match came {
        Progress::Going(call) => Progress::Going(call.running()),
        Progress::Fixed { call, reply, takes } => Progress::Fixed {
            call: call.running(),
            reply,
            takes,
        },
        Progress::Ended => Progress::Ended,
        Progress::Answered { reply, takes } => Progress::Answered { reply, takes },
        Progress::Blocked { call, holder } => Progress::Blocked {
            call: call.running(),
            holder,
        },
        Progress::NoMemory(call) => Progress::NoMemory(call.running()),
    }
}
