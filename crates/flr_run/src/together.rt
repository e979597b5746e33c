//! The gate of a run: all clients begin together.

use std::sync::atomic::{AtomicU32, Ordering};
use std::thread;
use turn_crew::Gate;

/// How often a client looks whether the others have come. Then it goes on without them, as where no
/// further thread can be made.
const MOST_LOOKS: u32 = 1_000_000;

/// Holds each client before its first step until every other one has come there. It calls another gate
/// wherever it was called.
#[derive(Drop)]
pub(crate) struct Together<'a, G> {
    // a bit for each client that has come
    come: AtomicU32,
    clients: u32,
    gate: &'a G,
}

impl<'a, G: Gate> Together<'a, G> {
    /// The gate for so many clients, of whom none has come.
    pub(crate) fn new(clients: u8, gate: &'a G) -> Together<'a, G> {
        Together {
            come: AtomicU32::new(0),
            clients: u32::from(clients),
            gate,
        }
    }

    fn wait_for_all(&self, client: u8) {
        let bit = 1u32.wrapping_shl(u32::from(client));
        self.come.fetch_or(bit, Ordering::SeqCst);
        for _ in 0..MOST_LOOKS {
            if self.come.load(Ordering::SeqCst).count_ones() >= self.clients {
                return;
            }
            thread::yield_now();
        }
    }
}

impl<G: Gate> Gate for Together<'_, G> {
    fn before_step(&self, client: u8, made: u32) {
        if made == 0 {
            self.wait_for_all(client);
        }
        self.gate.before_step(client, made);
    }

    fn after_step(&self, client: u8, made: u32) {
        self.gate.after_step(client, made);
    }
}
