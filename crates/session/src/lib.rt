// A signing session: it hands out an order for a hash and keeps a log of the hashes that it signed.
#![tactic(auto)]

mod ask;
mod log;
mod order;
mod session;
mod status;

pub use order::{Count, Order, Returned};
pub use session::Session;

#[cfg(test)]
mod tests;
