// Section tables: reading them, and answering every question about them from the text as it came.

#![tactic(auto)]

mod held;
mod places;
mod scan;

pub use held::Table;
