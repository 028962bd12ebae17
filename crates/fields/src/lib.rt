// An atom's numbers, its fields: taken from the bytes of a body, checked where they are held, and put into a body.
#![tactic(auto)]

mod held;
mod taking;

pub use held::{atom_at, put_atom};
pub use taking::take_atom;
