//! What a worker calls between its turns.

/// Is called by each worker outside its turns, and may hold it there. `made` is how many steps the
/// worker's client has made.
pub trait Gate {
    /// Before a worker begins to try for its next turn. It is called again where the answer was that
    /// another client is in the way.
    fn before_step(&self, client: u8, made: u32);

    /// After a step, which `made` counts.
    fn after_step(&self, client: u8, made: u32);
}

/// A gate that holds nobody.
#[derive(Drop)]
pub struct FreeGate;

impl Gate for FreeGate {
    fn before_step(&self, _client: u8, _made: u32) {}

    fn after_step(&self, _client: u8, _made: u32) {}
}
