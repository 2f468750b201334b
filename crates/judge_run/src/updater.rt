use input_lines::Lines;
use parallel_checks::CheckRun;
use sb_model::Row;
use snapshot_publish::{Publisher, Seat};
use std::alloc::Global;
use update_run::Client;

/// A client, and the publisher of its lists.
#[derive(Drop)]
pub struct Updater {
    pub client: Client,
    pub publisher: Publisher,
}

/// URLs that are to be checked beside rounds of updates.
#[derive(Drop)]
pub struct UncheckedUrls<'t> {
    pub alloc: Global,
    /// Where the publications are looked at, one for each worker.
    pub seats: Row<Seat>,
    pub urls: Lines<'t>,
}

/// URLs that were checked beside rounds of updates.
#[derive(Drop)]
pub struct CheckedUrls<'t> {
    pub run: CheckRun,
    pub urls: Lines<'t>,
    /// Whether a round was told with a refusal.
    pub refused: bool,
}
