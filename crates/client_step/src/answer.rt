use flr_steps::Note;

/// What a client's try to step came to.
#[derive(Drop)]
pub enum CallerAnswer {
    /// The client made its next step, of which the list of calls is to learn this.
    Moved(Note),
    /// This client holds what the step needs. Nothing has changed.
    Blocked { holder: u8 },
    /// Memory ran out. Nothing has changed.
    NoMemory,
}
