// Whether an order stands. The product keeps its hash in a field beside this, in memory that is always there.
#[derive(Clone, Copy, PartialEq)]
pub(crate) enum Status {
    Idle,
    Standing,
}
