// The checksum of what an IP packet carries, from start to the packet's end.
ghost use Rattle.std.specs.Prelude.{◌≡◌, ◌++◌, ◌≤◌, ◌<◌, length};
ghost use Rattle.inet.specs.Sum.{fold};
ghost use Rattle.inet.specs.Packet.{Form};
ghost use Rattle.inet.specs.Transport.{Within, address_words, seed, finish};
ghost use Rattle.inet.specs.Fronts.{Summable, CountsBehind};

use super::packet::{protocol_byte, version};
use super::sum::{folded, sum_bytes, sum_quads, sum_words};

// The folded sum of the pseudo-header. The form tells that both addresses are there.
pub fn seed(packet: &[u8], start: usize) -> u64
    requires form { Form packet.now }
    requires within { Within start packet.now }
    ensures { (result ≡ seed start packet.now) × (result ≤ 65535) }
{
    let addresses = address_words(packet);
    let protocol = protocol_byte(packet);
    let left = packet.len() - start;
    folded(addresses + protocol as u64 + left as u64)
}

// A number that folds to what the words of both addresses fold to.
fn address_words(packet: &[u8]) -> u64
    requires { Form packet.now }
    ensures { (fold result ≡ fold (address_words packet.now)) × (result < 1099511627776) }
{
    if version(packet) == 4 {
        sum_quads(&packet[12..20])
    } else {
        sum_quads(&packet[8..40])
    }
}

// The checksum of a packet in two parts that has the seed in its field: UDP sends a 0 as 65535. The packet may be of any form.
pub fn finish(front: &[u8], tail: &[u8], start: usize) -> u64
    requires { Summable start front.now tail.now }
    ensures { (result ≡ finish start (front.now ++ tail.now)) × (result ≤ 65535) }
{
    // the tail first: a front that was just stored byte by byte cannot be loaded in larger parts before it has reached the cache
    let far = sum_behind(front.len() - start, tail);
    let near = sum_bytes(&front[start..]);
    let sum = 65535 - folded(near + far);
    if sum == 0 && protocol_byte(front) == 17 {
        65535
    } else {
        sum
    }
}

// What tail counts behind so many bytes. Behind an odd number of them its bytes change halves, and 256 times a sum is that, but for multiples of 65535.
// A short packet has no tail.
fn sum_behind(size: usize, tail: &[u8]) -> u64
    requires { length tail.now ≤ 65535 }
    ensures { (CountsBehind size tail.now result) × (result < 1099511627776) }
{
    if tail.is_empty() {
        return 0;
    }
    let sum = sum_words(tail);
    if size % 2 == 0 { sum } else { sum * 256 }
}
