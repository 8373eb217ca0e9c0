// Capsules read and written against the state of a tunnel, which is lent.
// A good list replaces the earlier one whole: a capsule read replaces a received list, a capsule written a given one. Nothing else changes the
// state, and a refusal leaves it as it was. Refused: too small an output (16), a state that breaks its own rules (9), then as the capsule.
#![tactic(auto)]

mod carried;
mod reading;
mod writing;

pub use reading::{read_capsule, take_capsule};
pub use writing::{advertise, assign, request, write_assign, write_routes};
