// Exchanges: declared atoms, opening messages, roles, sessions and claims; and the files that they are kept in.
#![tactic(auto)]

pub mod claim;
pub mod declaration;
pub mod exchange;
mod field;
mod following;
pub mod label;
mod loading;
mod names;
pub mod refusal;
pub mod role;
pub mod session;
pub mod step;
pub mod store;
mod tag;
