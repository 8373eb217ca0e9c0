// Capsules in pieces: the stream is cut anywhere, and an unfinished capsule is kept between calls, in the store of the lent state. A call takes no
// byte past the end of one capsule; what it leaves is handed in again.
// Refused: too small an output (16), a state or a store that breaks its own rules (9), the refusal that is remembered, then as a capsule is read:
// 2 as soon as type and length are there, 3 to 7 when the value is all there. 1 is given while a capsule is open, and takes all bytes. 2 to 7 are
// remembered, which is all that they change; 9 and 16 change nothing.
#![tactic(auto)]

mod feeding;
mod handing;
mod store;

pub use feeding::{Call, Piece, feed};
pub use handing::next_capsule;
pub use store::KEPT_SIZE;
