// Cases: lines with a verb, operands and the outcome that is expected, and what comes out.
#![tactic(auto)]

mod case;
mod elements;
mod files;
mod keys;
mod outcomes;
mod packed;
mod place;
mod stop;
mod text;
mod verbs;

pub use case::Case;
pub use keys::sound_key;
pub use outcomes::{all_are, faulted, ok_bytes, ok_number, plain};
pub use stop::Stop;
pub use text::{bytes, number};
pub use verbs::outcome;
