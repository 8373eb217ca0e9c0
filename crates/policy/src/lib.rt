// Whether lists of addresses and routes let a packet pass: cover, allowance, and the rule for replies.
// A side, the addresses and routes of one direction, is lent as words, so that no packet pays for a copy. `side_sound` judges its rules;
// the other functions require them.
#![tactic(auto)]

mod cover; // cover.rt: address entries and the addresses they cover
mod admit; // admit.rt: route ranges and the addresses and protocols they let through

ghost use Rattle.std.specs.Prelude.{◌≡◌, true, ◌≤◌, length};
ghost use Rattle.inet.specs.Fronts.{Addressed};
ghost use Rattle.policy.specs.Granted.{side_words, side_in, sound_side, passes};
ghost use Rattle.policy.specs.Parts.{flow_with, address, granted_by};

use inet::Address;
use lists::{ADDRESS_WORDS, ROUTE_WORDS};

// The words of a side: its addresses, then its routes.
pub const SIDE_WORDS: usize = ADDRESS_WORDS + ROUTE_WORDS;

// All of a packet that its verdict depends on.
#[repr(C)]
#[derive(Clone, Copy)]
pub struct Flow {
    pub source: Address,
    pub destination: Address,
    pub protocol: u8,
    pub icmp: bool,
}

// What a packet that carries a protocol says, by its front.
pub fn flow_of(packet: &[u8], protocol: u8) -> Flow
    requires { Addressed packet.now }
    ensures { result ≡ flow_with protocol packet.now }
{
    let source = inet::packet::source(packet);
    let destination = inet::packet::destination(packet);
    let version = inet::packet::version(packet);
    let icmp = inet::packet::is_icmp(version, protocol);
    Flow {
        source,
        destination,
        protocol,
        icmp,
    }
}

// Whether a side's lists keep their rules.
pub fn side_sound(side: &[u64]) -> bool
    requires { side_words ≤ length side.now }
    ensures { result ≡ sound_side (side_in side.now) }
{
    lists::addresses_sound(&side[0..ADDRESS_WORDS])
        && lists::routes_sound(&side[ADDRESS_WORDS..SIDE_WORDS])
}

// Whether a side of at most one address and one range keeps its rules, judged without a loop: true says that it does. False says nothing.
pub fn short_sound(side: &[u64]) -> bool
    requires { side_words ≤ length side.now }
    ensures { result ≡ true → sound_side (side_in side.now) ≡ true }
{
    lists::short_addresses(&side[0..ADDRESS_WORDS])
        && lists::short_routes(&side[ADDRESS_WORDS..SIDE_WORDS])
}

// Whether a side grants a flow or, as a reply, the other one does.
pub fn passes<'a>(side: &'a [u64], reply: &'a [u64], f: Flow) -> bool
    requires side_words_in_bounds { (side_words ≤ length side.now) × (side_words ≤ length reply.now) }
    requires sides_sound { (sound_side (side_in side.now) ≡ true) × (sound_side (side_in reply.now) ≡ true) }
    ensures { result ≡ passes (side_in side.now) (side_in reply.now) f }
{
    let s = f.source;
    let d = f.destination;
    granted(
        side, s.version, s.hi, s.lo, d.version, d.hi, d.lo, f.protocol, f.icmp,
    ) || granted(
        reply, d.version, d.hi, d.lo, s.version, s.hi, s.lo, f.protocol, f.icmp,
    )
}

// Whether the near end's address is covered, and the far end's lies in a range that allows the protocol. All but the lists are numbers: a struct
// would go through memory, in other sizes than it was stored in.
fn granted(
    side: &[u64],
    near: u8,
    near_hi: u64,
    near_lo: u64,
    far: u8,
    far_hi: u64,
    far_lo: u64,
    protocol: u8,
    icmp: bool,
) -> bool
    requires side_words_in_bounds { side_words ≤ length side.now }
    requires sides_sound { sound_side (side_in side.now) ≡ true }
    ensures { result ≡ granted_by (side_in side.now) (address near near_hi near_lo) (address far far_hi far_lo) protocol icmp }
{
    let source = Address {
        version: near,
        hi: near_hi,
        lo: near_lo,
    };
    let destination = Address {
        version: far,
        hi: far_hi,
        lo: far_lo,
    };
    cover::any_covers(&side[0..ADDRESS_WORDS], source)
        && admit::any_admits(
            &side[ADDRESS_WORDS..SIDE_WORDS],
            destination,
            protocol,
            icmp,
        )
}
