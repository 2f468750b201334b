use update_run::Plan;

/// What a proxy is to do.
#[derive(Debug, Drop)]
pub struct ProxyPlan {
    /// Which lists it keeps, whom it asks for them and for full hashes, and how many rounds it makes.
    pub updates: Plan,
    /// After how many connections it ends.
    pub connections: u32,
    /// How long a look-up waits at most for the moment at which a find may be sent, in milliseconds.
    pub patience: u64,
}
