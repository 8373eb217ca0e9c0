// The packet with one hop fewer, made in a lent image.
ghost use Rattle.std.specs.Prelude.{◌≡◌, ◌++◌, ◌≤◌, length, get_or, drop};
ghost use Rattle.inet.specs.Update.{after_hop};
ghost use Rattle.inet.specs.Packet.{Headed4, lowered4, hop6, lowered, Lowerable};

use super::field::put_word;
use super::packet::version;
use super::sum::{folded_pair, word};

// Copies a packet, or the front of one that has its header, to the front of image, and lowers it there.
pub fn lower_into(packet: &[u8], image: &mut [u8])
    requires { Lowerable packet.now image.old }
    ensures { image.new ≡ lowered packet.now ++ drop (length packet.now) image.old }
{
    octets::copy(packet, image);
    let n = packet.len();
    if version(packet) == 4 {
        lower4(&mut image[..n]);
    } else {
        lower6(&mut image[..n]);
    }
}

// Lowers an IPv4 packet where it lies. However long the header is, its hop count and its checksum are all that is read.
fn lower4(p: &mut [u8])
    requires headed4 { Headed4 p.old }
    requires bound { 1 ≤ get_or p.old 8 0 }
    ensures { p.new ≡ lowered4 p.old }
{
    let hc = word(p[10], p[11]);
    p[8] -= 1;
    put_word(p, 10, after_hop(hc));
}

// ~m + m', where m is the word of hop count and protocol and m' that of one hop fewer: 65535 - m + (m - 256).
const HOP_FEWER: u64 = 65279;

// RFC 1624, equation 3, HC' = ~(~HC + ~m + m'): the checksum of a header with one hop fewer, which had hc. 65535 - w is ~w.
fn after_hop(hc: u64) -> u64
    requires { hc ≤ 65535 }
    ensures { (result ≡ after_hop hc) × (result ≤ 65535) }
{
    65535 - folded_pair(65535 - hc + HOP_FEWER)
}

// Lowers an IPv6 packet where it lies.
fn lower6(p: &mut [u8])
    requires { (8 ≤ length p.old) × (1 ≤ get_or p.old 7 0) }
    ensures { p.new ≡ hop6 p.old }
{
    p[7] -= 1;
}
