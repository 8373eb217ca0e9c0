// Header templates at work: which template of a table fits a packet, the bytes of a packet outside its segments, and the packet again.
// A template fits where every segment lies in the packet with equal bytes and, with a checksum, the packet's own is the right one. The bytes
// outside the segments then stand for the packet, with the seed in the checksum's field. These are inner functions: they ask for a sound table,
// a packet of good form and room, which the entry points above them establish. A table is lent as a slice, a part of the words of a state: such a part
// has no length in its type, and an array would ask more of callers.
#![tactic(auto)]

pub mod search; // search.rt: the template that fits, and the template of a Context ID
pub mod checksum; // checksum.rt: whether a packet's checksum is the right one, and the seed in its place
pub mod body; // body.rt: the bytes outside the segments, and the packet rebuilt

// The most bytes of a packet.
pub const MAX_PACKET: usize = 1500;

// The place of the template that fits a packet, and the seed under its checksum: 0 where it has none.
#[derive(Clone, Copy)]
pub struct Fit {
    pub place: usize,
    pub seed: u64,
}
