// Targets and signatures of a key.
#![tactic(auto)]

mod bits;
mod half;
mod rows;
mod sample;
mod sign;
mod target;

pub use sign::sign_sample;
pub use target::write_target;

#[cfg(test)]
mod tests;
