/// For whom a transaction runs: a client, or a worker that applies the source's entry of this number.
#[derive(Clone, Copy, Debug, PartialEq, Eq)]
pub enum Part {
    Client,
    Apply { entry: u64 },
}
