// Capsules read and written against the lent state.
ghost use Rattle.std.specs.Prelude.{◌≡◌, true, length};
ghost use Rattle.capsule_write.specs.Verdicts.{DatagramWritten, RequestWritten};
ghost use Rattle.tunnel_c.specs.Plain.{plain_answer, found_capsule, plain_capsule, Plainly, ReadsPlainly, AssignsPlainly, AdvertisesPlainly};

use super::{PlainAnswer, plain};
use answer::Refusal;
use capsule::{CapsuleRead, Kind};
use lists::{ADDRESS_WORDS, ROUTE_WORDS};
use state::STATE_WORDS;

// What stood at a place: the kind is its type, or 4 for a type that was skipped; a DATAGRAM's value has a start and a length.
#[repr(C)]
#[derive(Clone, Copy)]
pub struct PlainCapsule {
    pub number: u64,
    pub kind: u64,
    pub start: u64,
    pub length: u64,
    pub next: u64,
}

// The capsule at a place of the buffer. A good list replaces the received one; requested entries go to the host's memory for them.
pub fn whapirohi_read_capsule(
    state: &mut [u64; STATE_WORDS],
    bytes: &[u8],
    at: usize,
    requested: &mut [u64; ADDRESS_WORDS],
) -> PlainCapsule
    ensures { ReadsPlainly state.old bytes.now at requested.old result state.new requested.new }
{
    let read = exchange::read_capsule(state, bytes, at, requested);
    plain_capsule(read, at)
}

// A capsule that was read at a place, without an enum: a refusal leaves the place.
fn plain_capsule(read: Result<CapsuleRead, Refusal>, at: usize) -> PlainCapsule
    ensures { result ≡ plain_capsule at read }
{
    match read {
        Ok(read) => found(read),
        Err(why) => PlainCapsule {
            number: why.number() as u64,
            kind: 0,
            start: 0,
            length: 0,
            next: at as u64,
        },
    }
}

fn found(read: CapsuleRead) -> PlainCapsule
    ensures { result ≡ found_capsule read }
{
    let kind = read.kind.number();
    match read.kind {
        Kind::Datagram => PlainCapsule {
            number: 0,
            kind,
            start: read.start as u64,
            length: read.length as u64,
            next: read.next as u64,
        },
        _ => PlainCapsule {
            number: 0,
            kind,
            start: 0,
            length: 0,
            next: read.next as u64,
        },
    }
}

// A DATAGRAM with this value.
pub fn whapirohi_write_datagram(value: &[u8], out: &mut [u8]) -> PlainAnswer
    ensures { Plainly plain_answer (λ a. DatagramWritten value.now out.old a out.new) result }
{
    let answer = capsule_write::write_datagram(value, out);
    plain(answer)
}

// An ADDRESS_REQUEST with these entries.
pub fn whapirohi_write_request(list: &[u64; ADDRESS_WORDS], out: &mut [u8]) -> PlainAnswer
    ensures { Plainly plain_answer (λ a. RequestWritten list.now out.old a out.new) result }
{
    let answer = capsule_write::write_request(list, out);
    plain(answer)
}

// An ADDRESS_ASSIGN of the list, which becomes the given one.
pub fn whapirohi_write_assign(
    state: &mut [u64; STATE_WORDS],
    list: &[u64; ADDRESS_WORDS],
    out: &mut [u8],
) -> PlainAnswer
    ensures { AssignsPlainly state.old list.now out.old result state.new out.new }
{
    let answer = exchange::write_assign(state, list, out);
    plain(answer)
}

// A ROUTE_ADVERTISEMENT of the list, which becomes the given one.
pub fn whapirohi_write_routes(
    state: &mut [u64; STATE_WORDS],
    list: &[u64; ROUTE_WORDS],
    out: &mut [u8],
) -> PlainAnswer
    ensures { AdvertisesPlainly state.old list.now out.old result state.new out.new }
{
    let answer = exchange::write_routes(state, list, out);
    plain(answer)
}
