// One coordinator of a book.

// What it is opened with, and both sides of its account, in cents.
#[derive(Clone, Copy, Default)]
pub struct Coordinator {
    pub demand: u32,
    pub flagged: bool,
    pub market: i64,
    pub rc: u64,
}
