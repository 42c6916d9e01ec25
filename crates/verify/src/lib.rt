// Verification: the verdict on a signature under a form.
#![tactic(auto)]

mod image;
mod point;
mod verdict;

pub use verdict::verify;

#[cfg(test)]
mod tests;
