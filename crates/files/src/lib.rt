// What the commands read and write: files as what they are, tables and maps, and lines for people.

#![tactic(auto)]

pub mod description;
pub mod input;
pub mod output;
mod refusal;
mod stale;

pub use refusal::or_row;
