// Calls as the session matches them with its state, and what it replies where it does not refuse.
use crate::order::Order;

// Output areas and scratch stand beside the call: no clause can say what a `&mut` inside an enum holds at the return.
#[derive(Clone, Copy)]
pub(crate) enum Ask<'c> {
    Announce(&'c [u8]),
    Target(&'c Order),
    Sign(&'c Order, &'c [i16]),
    Withdraw(&'c Order),
}

#[derive(Clone, Copy)]
pub(crate) enum Reply {
    // The order's number.
    Ordered(u32),
    // The target was written.
    Aimed,
    // The sample's squared length, and whether the sign changed: the product fixes this pair.
    Signed(u32, bool),
    Withdrawn,
}
