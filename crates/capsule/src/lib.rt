// Capsules read from a buffer (RFC 9297, section 3.2; RFC 9484, section 4.7): DATAGRAM, ADDRESS_ASSIGN, ADDRESS_REQUEST, ROUTE_ADVERTISEMENT,
// and any other type, which is skipped whole. A capsule read says where its value stands; the list of a value is read from there.
// Refused, in this order: a capsule that is not all there (1; of types 0 to 3 a value over the limit first, 2), then the first fault
// element by element (3 or 4 before 6 or 5), an empty request (6), a list over its limit (7).
#![tactic(auto)]

mod element;
mod list;

ghost use Rattle.std.specs.Prelude.{◌≡◌, ◌≤◌, length};
ghost use Rattle.capsule.specs.Capsules.{kind_number, kind_numbered, frame_of, frame_at};
ghost use Rattle.capsule.specs.Heads.{HeadRead};
ghost use Rattle.capsule.specs.Results.{value_verdict, frame_in, read_at};

use answer::Refusal;
pub use element::{EntryRead, RangeRead};
pub use list::{entries_in, entries_into, ranges_in, ranges_into};

// The most bytes of a value of types 0 to 3.
pub const MAX_VALUE: usize = 16384;

// The most bytes of type and length.
pub const HEAD_SIZE: usize = 16;

// What a capsule is: types 0 to 3, and any other type, which is skipped.
#[derive(Clone, Copy, Debug, PartialEq, Eq)]
pub enum Kind {
    Datagram,
    AddressAssign,
    AddressRequest,
    RouteAdvertisement,
    Other,
}

impl Kind {
    // The type, and 4 for any other.
    pub fn number(self) -> u64
        ensures { result ≡ kind_number self }
    {
        match self {
            Kind::Datagram => 0,
            Kind::AddressAssign => 1,
            Kind::AddressRequest => 2,
            Kind::RouteAdvertisement => 3,
            Kind::Other => 4,
        }
    }
}

// A capsule at a place of a buffer. The value stands in the buffer from start on, and reading goes on at next. A refusal leaves the place.
#[derive(Clone, Copy)]
pub struct CapsuleRead {
    pub kind: Kind,
    pub start: usize,
    pub length: usize,
    pub next: usize,
}

// Type and length at the front of some bytes, and where the value starts.
#[derive(Clone, Copy)]
pub struct Head {
    pub kind: u64,
    pub start: usize,
    pub length: u64,
}

// Where the value of a capsule at the front of some bytes starts, and how long it is.
#[derive(Clone, Copy)]
pub struct FrameRead {
    pub kind: u64,
    pub start: usize,
    pub length: usize,
}

// The capsule at a place of the buffer. Its list is judged, and not handed back.
pub fn read(bytes: &[u8], at: usize) -> Result<CapsuleRead, Refusal>
    ensures { result ≡ read_at bytes.now at }
{
    let found = frame(bytes, at)?;
    value_verdict(found.kind, &bytes[found.start..found.next])?;
    Ok(found)
}

// Its kind and its place alone, whatever its value holds.
pub fn frame(bytes: &[u8], at: usize) -> Result<CapsuleRead, Refusal>
    ensures { result ≡ frame_in bytes.now at }
{
    if bytes.len() < at {
        return Err(Refusal::Incomplete);
    }
    let read = frame_of(&bytes[at..])?;
    let place = at + read.start;
    Ok(CapsuleRead {
        kind: kind_of(read.kind),
        start: place,
        length: read.length,
        next: place + read.length,
    })
}

// The kind of a capsule type.
fn kind_of(number: u64) -> Kind
    ensures { result ≡ kind_numbered number }
{
    match number {
        0 => Kind::Datagram,
        1 => Kind::AddressAssign,
        2 => Kind::AddressRequest,
        3 => Kind::RouteAdvertisement,
        _ => Kind::Other,
    }
}

// Type and length; none where they are not all there.
pub fn read_head(s: &[u8]) -> Option<Head>
    ensures { HeadRead s.now result }
{
    let kind = varint::read(s)?;
    let length = varint::read(&s[kind.size..])?;
    Some(Head {
        kind: kind.value,
        start: kind.size + length.size,
        length: length.value,
    })
}

// Type and length, and whether the value is all there.
fn frame_of(s: &[u8]) -> Result<FrameRead, Refusal>
    ensures { result ≡ frame_of s.now }
{
    let head = read_head(s).ok_or(Refusal::Incomplete)?;
    frame_at(s, head)
}

// The frame of a capsule of this head: no sum is made of a length that is not there.
fn frame_at(s: &[u8], head: Head) -> Result<FrameRead, Refusal>
    requires { head.start ≤ length s.now }
    ensures { result ≡ frame_at s.now head.kind head.start head.length }
{
    let size = head.length;
    if head.kind <= 3 && (MAX_VALUE as u64) < size {
        return Err(Refusal::TooLong);
    }
    let left = s.len() - head.start;
    if (left as u64) < size {
        return Err(Refusal::Incomplete);
    }
    Ok(FrameRead {
        kind: head.kind,
        start: head.start,
        length: size as usize,
    })
}

// The first fault of the value of a capsule of a kind.
fn value_verdict(kind: Kind, value: &[u8]) -> Result<(), Refusal>
    ensures { result ≡ value_verdict kind value.now }
{
    match kind {
        Kind::AddressAssign => {
            let mut words = [0u64; lists::ADDRESS_WORDS];
            entries_into(value, false, &mut words)
        }
        Kind::AddressRequest => {
            let mut words = [0u64; lists::ADDRESS_WORDS];
            entries_into(value, true, &mut words)
        }
        Kind::RouteAdvertisement => {
            let mut words = [0u64; lists::ROUTE_WORDS];
            ranges_into(value, &mut words)
        }
        Kind::Datagram | Kind::Other => Ok(()),
    }
}
