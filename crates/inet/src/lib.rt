// What the box knows of an IP packet by itself, with no grants and no templates: the sums of RFC 1071, the form of a packet (RFC 791, RFC 8200),
// what its header says, what it carries, the packet with one hop fewer, and the checksum of that. Bytes of bad form are told from packets by
// `packet::carried`; a function that needs a packet of good form says so in its `requires`.
#![tactic(auto)]

pub mod sum; // sum.rt: words and their folded sum
pub mod packet; // packet.rt: form, and what the header says
pub mod field; // field.rt: words in a packet
pub mod lower; // lower.rt: the packet with one hop fewer
pub mod transport; // transport.rt: the checksum of what a packet carries

// An IP address: that of IPv4 in lo, with hi 0.
#[repr(C)]
#[derive(Clone, Copy)]
pub struct Address {
    pub version: u8,
    pub hi: u64,
    pub lo: u64,
}
