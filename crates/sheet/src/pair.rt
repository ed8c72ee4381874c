// The pair of a coordinator and a resource, for which a charge quantity is told.

// A sheet has no rows of a coordinator above 63.
#[derive(Clone, Copy, Default, PartialEq, Eq, PartialOrd, Ord, Debug)]
pub struct Pair {
    pub coordinator: usize,
    pub resource: u8,
}
