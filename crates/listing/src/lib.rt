// The text of an exchange, for a reader who knows its labels and not its bytes.
#![tactic(auto)]

mod atoms;
mod claims;
pub mod exchanges;
pub mod forms;
mod listing;
mod parts;
mod sessions;
pub mod steps;
#[cfg(test)]
mod tests;
mod words;
