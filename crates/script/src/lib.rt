// What the lines of a script mean, and the text of each reply.
#![tactic(auto)]

mod hex;
mod line;
mod operand;
mod reply;

pub use hex::{hex_bytes, hex_digit, hex_text};
pub use line::{Line, read_line};
pub use operand::sample;
pub use reply::{Reply, bytes_text, reply_text, signed_text, target_text};

#[cfg(test)]
mod tests;
