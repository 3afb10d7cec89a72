use lock_table::Owner;

/// A worker: as whom it holds locks, the entry of the source's log that it has, and how many of the entry's
/// statements were started.
#[derive(Clone, Copy, Debug)]
pub struct Worker {
    pub owner: Owner,
    pub entry: Option<u64>,
    pub started: usize,
}
