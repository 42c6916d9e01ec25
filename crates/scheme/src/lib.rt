// The definitions of HAWK over lists of integers stand in specs/: keys, forms, verification and signing sessions.
// The code here is what verification and sessions refuse, and the bits of a hash.
#![tactic(auto)]

mod fault;
mod hash;
mod limits;

pub use fault::{CheckFault, SessionFault};
pub use hash::hash_bit;
pub use limits::{all_within, first_outside, within};
