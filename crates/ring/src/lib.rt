// Arithmetic in Z[X]/(X^n + 1), written once for every kind of number.
#![tactic(auto)]

mod class;
mod display;
mod fault;
mod kind;
mod linear;
mod memory;
mod products;
mod strip;
mod wide;

pub use class::Class;
pub use fault::{Fault, Layer, RingFault};
pub use kind::{Bit, Coefficient};
pub use linear::{adjoint, sum};
pub use memory::filled;
pub use products::{coefficient, product};
pub use strip::Turned;
pub use wide::{Number, widen};

#[cfg(test)]
mod tests;
