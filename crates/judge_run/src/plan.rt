use update_run::Plan;

/// What a run that judges URLs is to do.
#[derive(Debug, Drop)]
pub struct JudgePlan {
    /// Which lists URLs are looked up on, whom the client asks, and how many rounds of updates are made while URLs are checked.
    pub updates: Plan,
    /// On how many threads URLs are checked, 1 to 16.
    pub workers: u32,
    /// How long a find is waited for at most, in milliseconds: up to 86,400,000.
    pub patience: u64,
}
