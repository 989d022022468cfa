// ELF64 objects as section graphs. The rules of an object stand in the crate `rules`, the graph that it means in
// specs/Meaning.antt.

#![tactic(auto)]

mod held;

pub use held::Object;
