//! What a worker's step did.

/// What a worker's step did.
#[derive(Clone, Copy, Debug, PartialEq, Eq)]
pub enum WorkerStep {
    /// One request was taken and carried out, be it the first Shut.
    Did,
    /// One request was taken that stands after a Shut: it changed no table, and is answered
    /// `XAER_RMFAIL`.
    Late,
    /// One thread's end mark was taken.
    EndSeen,
    /// Nothing was there to be taken.
    Empty,
    /// An earlier completion still finds its lane full, and nothing was taken. Or a taken request is held
    /// that has another thread than its sender's, or that came where the manager had no room: it is
    /// never carried out, and each later step is Blocked.
    Blocked,
}
