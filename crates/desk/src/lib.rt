// A session with its order in hand, for programs: the order lies in an `Option`, where none can get lost.
#![tactic(auto)]

mod desk;
mod hand;

pub use desk::Desk;
pub use hand::{announce, close, sign, target, withdraw};

#[cfg(test)]
mod tests;
