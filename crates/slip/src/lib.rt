// Slips: the layout of keys, forms and signatures as bytes.
#![tactic(auto)]

mod fault;
mod kind;
mod numbers;
mod reader;
mod signature;
mod writer;

pub use fault::SlipFault;
pub use kind::Kind;
pub use numbers::{SlipNumber, read_numbers, write_numbers};
pub use reader::{Part, Slip};
pub use signature::{read_signature, write_signature};
pub use writer::write_trailer;

#[cfg(test)]
mod tests;
