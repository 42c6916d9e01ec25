// Keys and forms in fixed memory, and the scratch that their calls are lent.
#![tactic(auto)]

mod fault;
mod form;
mod key;
mod memory;
mod product;
mod scratch;
mod section;
mod star;

pub use fault::{FormFault, KeyFault};
pub use form::Form;
pub use key::Key;
pub use scratch::Guard;

#[cfg(test)]
mod tests;
