// Route ranges, and the addresses and protocols they let through.
ghost use Rattle.std.specs.Prelude.{◌≡◌, true, ◌≤◌, ◌||◌, eqb, length};
ghost use Rattle.octets.specs.Scan.{any_of};
ghost use Rattle.lists.specs.Words.{route_words, ranges_of, sound_routes};
ghost use Rattle.policy.specs.Granted.{holds, admits};

use inet::Address;
use lists::{RouteRange, WORDS_PER_RANGE};

// Whether some range holds an address and allows a protocol.
pub(crate) fn any_admits(w: &[u64], a: Address, protocol: u8, icmp: bool) -> bool
    requires route_words_in_bounds { route_words ≤ length w.now }
    requires routes_sound { sound_routes (ranges_of w.now) ≡ true }
    ensures { result ≡ any_of (admits a protocol icmp) (ranges_of w.now) }
{
    if a.version == 4 {
        any_admits4(w, a, protocol, icmp)
    } else {
        any_admits6(w, a, protocol, icmp)
    }
}

// The same of any other address. The high word of a range's end decides for most ranges, and only where it is that of the address the low one.
fn any_admits6(w: &[u64], a: Address, protocol: u8, icmp: bool) -> bool
    requires route_words_in_bounds { route_words ≤ length w.now }
    requires routes_sound { sound_routes (ranges_of w.now) ≡ true }
    ensures { result ≡ any_of (admits a protocol icmp) (ranges_of w.now) }
{
    let n = w[0] as usize;
    let hi = a.hi;
    let lo = a.lo;
    for i in 0..n {
        let b = i * WORDS_PER_RANGE;
        let end_hi = w[b + 4];
        if hi <= end_hi && (hi < end_hi || lo <= w[b + 5]) {
            let range = lists::range_at(w, i);
            if admits(range, a, protocol, icmp) {
                return true;
            }
        }
    }
    false
}

// The same of an IPv4 address: sound ranges of its version have no high words, so the low ones tell most that do not hold it.
fn any_admits4(w: &[u64], a: Address, protocol: u8, icmp: bool) -> bool
    requires route_words_in_bounds { route_words ≤ length w.now }
    requires routes_sound { sound_routes (ranges_of w.now) ≡ true }
    requires version_4 { a.version ≡ 4 }
    ensures { result ≡ any_of (admits a protocol icmp) (ranges_of w.now) }
{
    let n = w[0] as usize;
    let lo = a.lo;
    for i in 0..n {
        let b = i * WORDS_PER_RANGE;
        if lo <= w[b + 5] && w[b + 3] <= lo {
            let r = lists::range_at(w, i);
            if admits(r, a, protocol, icmp) {
                return true;
            }
        }
    }
    false
}

// Whether a range holds an address and allows a protocol. In a list in order, most that do not hold it end before it.
fn admits(r: RouteRange, a: Address, protocol: u8, icmp: bool) -> bool
    ensures { result ≡ admits a protocol icmp r }
{
    holds(r, a) && allows(r.protocol, protocol, icmp)
}

fn holds(r: RouteRange, a: Address) -> bool
    ensures { result ≡ holds a r }
{
    octets::at_most(a.hi, a.lo, r.end_hi, r.end_lo)
        && r.version == a.version
        && octets::at_most(r.start_hi, r.start_lo, a.hi, a.lo)
}

// Whether a range that names a protocol allows another one, of a packet that is ICMP or not.
fn allows(named: u8, protocol: u8, icmp: bool) -> bool
    ensures { result ≡ (eqb named 0 || (eqb named protocol || icmp)) }
{
    named == 0 || named == protocol || icmp
}
