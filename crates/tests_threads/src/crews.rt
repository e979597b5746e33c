use crate::scripts::{TWO, world_of};
use std::alloc::{AllocError, Global};
use std::hint;
use std::sync::atomic::{AtomicBool, Ordering};
use std::test::Fail;
use turn_cell::{StepAnswer, Stepped};
use turn_crew::{FreeGate, Gate, run_crew};

/// How many steps a client of `TWO` makes.
const STEPS: u32 = 11;

/// Holds client 1 inside its write until client 2 has made all of its steps.
#[derive(Drop)]
struct HoldGate {
    open: AtomicBool,
    gave_up: AtomicBool,
}

impl Gate for HoldGate {
    fn before_step(&self, client: u8, made: u32) {
        if client != 1 || made != 2 {
            return;
        }
        for _ in 0..1_000_000_000u64 {
            if self.open.load(Ordering::SeqCst) {
                return;
            }
            hint::spin_loop();
        }
        self.gave_up.store(true, Ordering::SeqCst);
    }

    fn after_step(&self, client: u8, made: u32) {
        if client == 2 && made == STEPS {
            self.open.store(true, Ordering::SeqCst);
        }
    }
}

/// 16 clients, each of which writes ten times to one file, which the first of them makes.
fn many(alloc: Global) -> Result<Vec<u8>, AllocError> {
    let mut text = Vec::from_slice(alloc, b"flr-script 1\ntargets 2\n")?;
    for client in 1..=16u8 {
        text.extend_from_slice(b"client ")?;
        if client > 9 {
            text.push(b'1')?;
        }
        text.push(b'0' + client % 10)?;
        text.push(b'\n')?;
        if client == 1 {
            text.extend_from_slice(b"lfs mirror create -N2 /a\n")?;
        }
        for _ in 0..10 {
            text.extend_from_slice(b"write /a 0 61*3\n")?;
        }
    }
    Ok(text)
}

#[test]
fn a_held_client_holds_no_other(rt: HostRuntime) -> Result<(), Fail> {
    let gate = HoldGate {
        open: AtomicBool::new(false),
        gave_up: AtomicBool::new(false),
    };
    let Some(world) = world_of(rt.alloc(), TWO) else {
        panic!(rt; "no world")
    };
    let Ok(world) = run_crew(&rt, rt.alloc(), world, 2, &gate) else {
        panic!(rt; "no memory")
    };
    let ended = (
        world.schedule().len(),
        world.unfinished(),
        gate.gave_up.load(Ordering::SeqCst),
    );
    assert!(rt; ended == (22, None, false));
    Ok(())
}

#[test]
fn sixteen_clients_make_all_their_steps(rt: HostRuntime) -> Result<(), Fail> {
    let text = many(rt.alloc())?;
    let Some(world) = world_of(rt.alloc(), &text) else {
        panic!(rt; "no world")
    };
    let Ok(world) = run_crew(&rt, rt.alloc(), world, 16, &FreeGate) else {
        panic!(rt; "no memory")
    };
    assert!(rt; (world.entries().len(), world.unfinished()) == (161, None));
    Ok(())
}

/// A value of which client 1 wants memory that there isn't, once client 2 was told to wait for it.
#[derive(Drop)]
struct Starved {
    waits: bool,
}

impl Stepped for Starved {
    ghost use Rattle.std.specs.Prelude.{[]};

    type Origin = ();

    ghost schedule = { λ w. [] };

    ghost origin = { λ w. tt };

    ghost allowed = { λ o seen client answer. Unit {0} };

    fn step(&mut self, client: u8) -> StepAnswer {
        match client {
            1 if self.waits => StepAnswer::NoMemory,
            1 => StepAnswer::Blocked { holder: 2 },
            _ => {
                self.waits = true;
                StepAnswer::Blocked { holder: 1 }
            }
        }
    }

    fn places(&self) -> u32 {
        0
    }
}

#[test]
fn a_crew_without_memory_ends(rt: HostRuntime) -> Result<(), Fail> {
    let ended = run_crew(&rt, rt.alloc(), Starved { waits: false }, 2, &FreeGate);
    assert!(rt; ended.is_err());
    Ok(())
}
