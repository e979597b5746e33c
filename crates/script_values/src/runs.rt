use flr_base::Listed;

/// A stretch of a schedule: the client steps so many times in a row. Any number may stand for the
/// client, also one that no client has.
#[derive(Clone, Copy, Debug, PartialEq, Eq)]
pub struct ClientRun {
    pub client: u32,
    pub times: u32,
}

/// A schedule by its stretches.
pub type Runs = Listed<ClientRun>;
