// Sending and receiving: a packet from a tablet goes out as a datagram, in short form where a template fits, and a datagram from the link comes
// in as a packet. Each judges first, and writes only where nothing refuses.
// Sending refuses: too small an output (16), a state that breaks its rules (9), a packet over the limit (15), of bad form (10), out of hops (11),
// not granted (12). Receiving: 16, 9, a cut Context ID (14), an unknown one (13), too few bytes (14), then 15, 10 and 12.
#![tactic(auto)]

mod judging; // judging.rt: whether a packet may go on
mod sending; // sending.rt: from a packet to a datagram
mod receiving; // receiving.rt: from a datagram to a packet

pub use receiving::receive;
pub use sending::send;
use template::MAX_PACKET;
use varint::ROOM;

// The least outputs that are sent to and received into: a Context ID and a packet; a packet.
pub const SEND_ROOM: usize = ROOM + MAX_PACKET;

pub const RECEIVE_ROOM: usize = MAX_PACKET;
