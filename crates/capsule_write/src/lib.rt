// Capsules written to a lent output (RFC 9297, section 3.2; RFC 9484, section 4.7), all numbers in their shortest form.
// Refused, in this order: too small an output (16), a DATAGRAM value over the limit (2), the first fault of a list element by
// element (3 before 6, 4 before 5), an empty request (6), a list over its limit (7). A refusal alters no byte.
#![tactic(auto)]

mod element;
mod judge;
mod list;

ghost use Rattle.std.specs.Prelude.{◌≡◌, true, false, ◌++◌, ◌≤◌, length};
ghost use Rattle.octets.specs.Scan.{from, all_of};
ghost use Rattle.varint.specs.Numbers.{encode};
ghost use Rattle.lists.specs.Words.{count_of};
ghost use Rattle.capsule.specs.Elements.{written};
ghost use Rattle.capsule.specs.Capsules.{max_value, frame_bytes};
ghost use Rattle.output.specs.Places.{Put};
ghost use Rattle.capsule_write.specs.Verdicts.{capsule_room};
ghost use Rattle.capsule_write.specs.Verdicts.{DatagramWritten, ListWritten, AssignWritten, RequestWritten, RequestValueWritten, RoutesWritten};

use crate::element::Element;
use answer::Refusal;
use capsule::MAX_VALUE;
use lists::{ADDRESS_WORDS, AddressEntry, ROUTE_WORDS, RouteRange};

// The room for type and length: they take five bytes at most, since a value is below 2^30.
pub const HEADER_ROOM: usize = 8;

// The least output that a capsule is written to.
pub const CAPSULE_ROOM: usize = MAX_VALUE + HEADER_ROOM;

// A DATAGRAM with this value.
pub fn write_datagram(value: &[u8], out: &mut [u8]) -> Result<usize, Refusal>
    ensures { DatagramWritten value.now out.old result out.new }
{
    if out.len() < CAPSULE_ROOM {
        return Err(Refusal::NoRoom);
    }
    if MAX_VALUE < value.len() {
        return Err(Refusal::TooLong);
    }
    let start = put_header(out, 0, value.len());
    let end = output::put_bytes(out, start, value);
    Ok(end)
}

// An ADDRESS_ASSIGN with these entries.
pub fn write_assign(list: &[u64; ADDRESS_WORDS], out: &mut [u8]) -> Result<usize, Refusal>
    ensures { AssignWritten list.now out.old result out.new }
{
    write_list::<AddressEntry>(1, false, list, out)
}

// An ADDRESS_REQUEST with these entries.
pub fn write_request(list: &[u64; ADDRESS_WORDS], out: &mut [u8]) -> Result<usize, Refusal>
    ensures { RequestWritten list.now out.old result out.new }
{
    write_list::<AddressEntry>(2, true, list, out)
}

// The entries of a request without type and length.
pub fn put_request_value(list: &[u64; ADDRESS_WORDS], out: &mut [u8]) -> Result<usize, Refusal>
    ensures { RequestValueWritten list.now out.old result out.new }
{
    if out.len() < CAPSULE_ROOM {
        return Err(Refusal::NoRoom);
    }
    judge::verdict::<AddressEntry>(list, true)?;
    Ok(list::put::<AddressEntry>(out, 0, list, list[0] as usize))
}

// A ROUTE_ADVERTISEMENT with these ranges.
pub fn write_routes(list: &[u64; ROUTE_WORDS], out: &mut [u8]) -> Result<usize, Refusal>
    ensures { RoutesWritten list.now out.old result out.new }
{
    write_list::<RouteRange>(3, false, list, out)
}

// A capsule of a list, the kind of which says whether it is a request.
fn write_list<T: Element>(
    kind: u64,
    request: bool,
    w: &[u64],
    out: &mut [u8],
) -> Result<usize, Refusal>
    requires words_in_bounds { T.words ≤ length w.now }
    requires kind_bound { kind ≤ 3 }
    ensures { ListWritten kind request (T.format request) T.LIMIT (T.at w.now) (count_of w.now) out.old result out.new }
{
    if out.len() < CAPSULE_ROOM {
        return Err(Refusal::NoRoom);
    }
    judge::verdict::<T>(w, request)?;
    Ok(put_list::<T>(out, kind, w))
}

// Type and length, at the front of the output.
fn put_header(out: &mut [u8], kind: u64, size: usize) -> usize
    requires { (kind ≤ 3) × (size ≤ max_value) × (capsule_room ≤ length out.old) }
    ensures { Put (encode kind ++ encode size) 0 out.old result out.new }
{
    let length = varint::put_number(out, 0, kind);
    varint::put_number(out, length, size as u64)
}

// A capsule of a list of sound elements.
fn put_list<T: Element>(out: &mut [u8], kind: u64, w: &[u64]) -> usize
    requires words_in_bounds { T.words ≤ length w.now }
    requires count_le_limit { count_of w.now ≤ T.LIMIT }
    requires sound { all_of (T.format false).sound (from (T.at w.now) 0 (count_of w.now)) ≡ true }
    requires kind_and_room { (kind ≤ 3) × (capsule_room ≤ length out.old) }
    ensures { Put (frame_bytes kind (written (T.format false) (from (T.at w.now) 0 (count_of w.now)))) 0 out.old result out.new }
{
    let n = w[0] as usize;
    let size = list::size::<T>(w, n);
    let start = put_header(out, kind, size);
    list::put::<T>(out, start, w, n)
}
