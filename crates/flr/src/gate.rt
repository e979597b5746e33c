//! The gate of the program's threads.

use std::sync::atomic::{AtomicU32, Ordering};
use std::thread;
use turn_crew::Gate;

/// The step from one number to the next: odd, so that all numbers come before one comes again.
const NEXT: u32 = 2_654_435_769;

/// Has each client let the others go first after a step, from once to eight times, by numbers that begin with
/// a seed. So runs with other seeds differ.
#[derive(Drop)]
pub(crate) struct MixedGate {
    number: AtomicU32,
}

impl MixedGate {
    pub(crate) fn new(seed: u32) -> MixedGate {
        MixedGate {
            number: AtomicU32::new(seed),
        }
    }
}

impl Gate for MixedGate {
    fn before_step(&self, _client: u8, _made: u32) {}

    fn after_step(&self, _client: u8, _made: u32) {
        let number = self.number.fetch_add(NEXT, Ordering::SeqCst);
        let mixed = (number ^ (number >> 15)).wrapping_mul(NEXT);
        for _ in 0..=mixed >> 29 {
            thread::yield_now();
        }
    }
}
