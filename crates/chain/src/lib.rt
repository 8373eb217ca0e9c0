// The chain of IPv6 headers (RFC 8200, section 4): from the number in the IPv6 header on, to the first that names no extension header.
// The packet is in two parts, of which a header may have bytes in both.
#![tactic(auto)]

mod class; // class.rt: which numbers name extension headers

ghost use Rattle.std.specs.Prelude.{◌≡◌, ◌++◌, ◌≤◌, ◌<◌, ◌+◌, ◌*◌, length, get_or, drop};
ghost use Rattle.chain.specs.Chain.{max_payload, InFront, size_of, later, chain};
ghost use Rattle.chain.specs.Class.{number_of};

pub use class::is_extension;
use class::{Class, classes, number};

// The protocol to which the chain leads whose first header has this number and stands behind the IPv6 header; None where a header is cut.
pub fn walk<'a>(front: &'a [u8], tail: &'a [u8], first: u8) -> Option<u8>
    requires { (40 ≤ length front.now) × (length front.now + length tail.now ≤ max_payload + 40) }
    ensures { result ≡ chain first (drop 40 (front.now ++ tail.now)) }
{
    let classes = classes();
    let end = front.len() + tail.len();
    let mut number = first;
    let mut quads: usize = 0;
    let mut class = classes[first as usize];
    let mut step = quads_in(front, quads, class);
    while 0 < step {
        number = front[40 + 4 * quads];
        quads += step;
        class = classes[number as usize];
        step = quads_in(front, quads, class);
    }
    let mut at = 40 + 4 * quads;
    while class != Class::Plain {
        let size = size_at(front, tail, at, class);
        if end - at < size {
            return None;
        }
        if later_at(front, tail, at, class) {
            return Some(number);
        }
        number = byte_of(front, tail, at);
        at += size;
        class = classes[number as usize];
    }
    Some(number)
}

// How many units of 4 bytes a header has that says how long it is, stands so many of them behind the IPv6 header and lies in the front: nearly all headers do, and are passed
// without a look at the other part. 0 says nothing (no header has so few, so that it needs no Option). Most have 8 bytes, and the processor guesses the test for that: the next header then waits for no length.
fn quads_in(front: &[u8], quads: usize, class: Class) -> usize
    requires { 40 + 4 * quads ≤ length front.now }
    ensures { InFront front.now quads (number_of class) result }
{
    if matches!(class, Class::Plain | Class::Fragment) {
        return 0;
    }
    let left = (front.len() - 40) / 4 - quads;
    if left < 2 {
        return 0;
    }
    let length = front[41 + 4 * quads] as usize;
    if length == 0 {
        return 2;
    }
    match class {
        Class::Eights => within(2 + 2 * length, left),
        Class::Fours => within(2 + length, left),
        _ => 0,
    }
}

// A size that is left, or else 0.
fn within(size: usize, left: usize) -> usize
    ensures { 0 < result → (result ≡ size) × (size ≤ left) }
{
    if size <= left { size } else { 0 }
}

// How many bytes the header of a class has that stands at a place.
fn size_at<'a>(front: &'a [u8], tail: &'a [u8], at: usize, class: Class) -> usize
    requires { at ≤ max_payload + 40 }
    ensures { result ≡ size_of (number_of class) (drop at (front.now ++ tail.now)) }
{
    match class {
        Class::Fragment => 8,
        _ => 8 + number(class) * byte_of(front, tail, at + 1) as usize,
    }
}

// Whether it is a fragment that is not the first.
fn later_at<'a>(front: &'a [u8], tail: &'a [u8], at: usize, class: Class) -> bool
    requires { at ≤ max_payload + 40 }
    ensures { result ≡ later (number_of class) (drop at (front.now ++ tail.now)) }
{
    match class {
        Class::Fragment => byte_of(front, tail, at + 2) != 0 || 8 <= byte_of(front, tail, at + 3),
        _ => false,
    }
}

// The byte at a place of the packet, and 0 past its end.
fn byte_of<'a>(front: &'a [u8], tail: &'a [u8], at: usize) -> u8
    ensures { result ≡ get_or (front.now ++ tail.now) at 0 }
{
    if at < front.len() {
        return front[at];
    }
    let behind = at - front.len();
    if behind < tail.len() { tail[behind] } else { 0 }
}
