// The form of a packet, and what its header says.
ghost use Rattle.std.specs.Prelude.{◌≡◌, true, ◌++◌, ◌≤◌, ◌<◌, ◌+◌, min, length, get_or};
ghost use Rattle.chain.specs.Chain.{max_payload};
ghost use Rattle.inet.specs.Packet.{version_of, form4, fixed6, address4_at, address6_at, source_of, destination_of};
ghost use Rattle.inet.specs.Packet.{protocol_byte, icmp_in, hop_place, hops_of};
ghost use Rattle.inet.specs.Fronts.{max_header, Tells, Parted, carried_by, Addressed};

use super::Address;
use super::sum::{folded, sum_quads, word};
use chain::{is_extension, walk};

// The protocol that a packet in two parts carries; None where its form is bad.
pub fn carried<'a>(front: &'a [u8], tail: &'a [u8]) -> Option<u8>
    requires { Parted front.now tail.now }
    ensures { result ≡ carried_by (front.now ++ tail.now) }
{
    let size = front.len() + tail.len();
    match version(front) {
        4 => {
            if ipv4_form(front, size) {
                Some(byte_at(front, 9))
            } else {
                None
            }
        }
        6 => {
            if !ipv6_fixed(front, size) {
                return None;
            }
            let first = byte_at(front, 6);
            if is_extension(first) {
                walk(front, tail, first)
            } else {
                Some(first)
            }
        }
        _ => None,
    }
}

// The form of an IPv4 packet of so many bytes, of which the front is here: its header tells.
fn ipv4_form(p: &[u8], size: usize) -> bool
    requires { min max_header size ≤ length p.now }
    ensures { Tells form4 p.now size result }
{
    if size < 20 {
        return false;
    }
    let n = (p[0] % 16) as usize * 4;
    p[0] / 16 == 4
        && 20 <= n
        && n <= size
        && word(p[2], p[3]) == size as u64
        && folded(sum_quads(&p[..n])) == 65535
}

// The fixed header of IPv6 likewise.
fn ipv6_fixed(p: &[u8], size: usize) -> bool
    requires { min max_header size ≤ length p.now }
    ensures { Tells fixed6 p.now size result × (result ≡ true → size ≤ max_payload + 40) }
{
    40 <= size && p[0] / 16 == 6 && word(p[4], p[5]) + 40 == size as u64
}

// The byte at a place, and 0 past the end.
pub fn byte_at(packet: &[u8], i: usize) -> u8
    ensures { result ≡ get_or packet.now i 0 }
{
    if i < packet.len() { packet[i] } else { 0 }
}

pub fn version(packet: &[u8]) -> u8
    ensures { (result ≡ version_of packet.now) × (result < 16) }
{
    byte_at(packet, 0) / 16
}

// The source address, of a packet or the front of one.
pub fn source(packet: &[u8]) -> Address
    requires { Addressed packet.now }
    ensures { result ≡ source_of packet.now }
{
    if version(packet) == 4 {
        address4(packet, 12)
    } else {
        address6(packet, 8)
    }
}

// The destination address likewise.
pub fn destination(packet: &[u8]) -> Address
    requires { Addressed packet.now }
    ensures { result ≡ destination_of packet.now }
{
    if version(packet) == 4 {
        address4(packet, 16)
    } else {
        address6(packet, 24)
    }
}

fn address4(packet: &[u8], at: usize) -> Address
    requires { at + 4 ≤ length packet.now }
    ensures { result ≡ address4_at at packet.now }
{
    let lo = octets::big_at(packet, at, 4);
    Address {
        version: 4,
        hi: 0,
        lo,
    }
}

fn address6(packet: &[u8], at: usize) -> Address
    requires { at + 16 ≤ length packet.now }
    ensures { result ≡ address6_at at packet.now }
{
    let version = version(packet);
    let hi = octets::big_at(packet, at, 8);
    let lo = octets::big_at(packet, at + 8, 8);
    Address { version, hi, lo }
}

// The protocol that checksums count.
pub fn protocol_byte(packet: &[u8]) -> u8
    ensures { result ≡ protocol_byte packet.now }
{
    match version(packet) {
        4 => byte_at(packet, 9),
        6 => byte_at(packet, 6),
        _ => 0,
    }
}

// The place of the hop count.
pub fn hop_place(packet: &[u8]) -> usize
    ensures { result ≡ hop_place packet.now }
{
    if version(packet) == 4 { 8 } else { 7 }
}

pub fn hops(packet: &[u8]) -> u8
    ensures { result ≡ hops_of packet.now }
{
    byte_at(packet, hop_place(packet))
}

// Whether a protocol is ICMP in a version.
pub fn is_icmp(version: u8, protocol: u8) -> bool
    ensures { result ≡ icmp_in version protocol }
{
    match version {
        4 => protocol == 1,
        6 => protocol == 58,
        _ => false,
    }
}
