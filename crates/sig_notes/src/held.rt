/// What a transmitter holds as it begins to serve.
#[derive(Clone, Copy, Debug)]
pub struct Held {
    /// How many streams stand.
    pub streams: u64,
    /// How many tokens they owe together.
    pub owed: u64,
    /// How many records stand in the journal.
    pub records: u64,
}
