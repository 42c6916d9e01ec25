// What the programs answer, as text.
#![tactic(auto)]

mod form;
mod refusal;

pub use form::measure;
pub use refusal::{layer_name, refusal_line};
