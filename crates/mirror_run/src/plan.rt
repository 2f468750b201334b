use update_run::Plan;

/// What a mirror is to do.
#[derive(Debug, Drop)]
pub struct MirrorPlan {
    /// Which lists it keeps, whom it asks for them, and how many rounds it makes.
    pub updates: Plan,
    /// After how many connections it ends.
    pub connections: u32,
    /// The minimum wait that it tells its clients, in seconds, at most a day.
    pub wait: u32,
}
