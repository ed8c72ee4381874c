// The side of an account that a payment goes to.
#[derive(Clone, Copy, PartialEq, Eq, Debug)]
pub enum Side {
    Market,
    Rc,
}
