// Messages of a lift's shared line: atoms and their kinds, forms and messages, filling, and the list of stops.
#![tactic(auto)]

pub mod closed;
pub mod form;
pub mod kind;
pub mod reader;
pub mod row;
pub mod stop;
#[cfg(test)]
mod tests;
pub mod values;
pub mod variables;
