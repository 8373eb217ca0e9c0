// Lists, values and outputs at their limits, and one past them.
ghost use Rattle.std.specs.Prelude.{◌+◌, ◌≤◌};
ghost use Rattle.lists.specs.Words.{max_ranges};

use capsule::MAX_VALUE;
use capsule_write::CAPSULE_ROOM;
use lists::{MAX_ADDRESSES, MAX_RANGES};
use print::Counted;
use std::io;

// The bytes of type and length, of an entry and of a range, all of IPv4.
const HEAD: usize = 3;

const ENTRY: usize = 7;

const RANGE: usize = 10;

// The limits, as numbers of the widths that the capsules are made with.
const MOST_ENTRIES: u8 = MAX_ADDRESSES as u8;

const MOST_RANGES: u16 = MAX_RANGES as u16;

const MOST_BYTES: u32 = MAX_VALUE as u32;

const ENTRIES_ROOM: usize = HEAD + ENTRY * (MAX_ADDRESSES + 1);

const RANGES_ROOM: usize = HEAD + RANGE * (MAX_RANGES + 1);

pub(crate) fn limits(rt: &impl Print) -> io::Result<()> {
    println!(rt; "limits")?;
    lists(rt)?;
    requests(rt)?;
    values(rt)?;
    outputs(rt)
}

fn lists(rt: &impl Print) -> io::Result<()> {
    crate::read_each(
        rt,
        &[
            ("32 addresses", &entries(1, MOST_ENTRIES)),
            ("33 addresses", &entries(1, MOST_ENTRIES + 1)),
            ("256 ranges", &ranges(MOST_RANGES)),
            ("257 ranges", &ranges(MOST_RANGES + 1)),
        ],
    )
}

fn requests(rt: &impl Print) -> io::Result<()> {
    let over = entries(2, MOST_ENTRIES + 1);
    let mut repeated = over;
    repeated[HEAD + ENTRY * MAX_ADDRESSES] = 1;
    crate::read_each(
        rt,
        &[
            ("32 requests", &entries(2, MOST_ENTRIES)),
            ("33 requests", &over),
            ("33 requests, the last ID repeated", &repeated),
        ],
    )
}

fn values(rt: &impl Print) -> io::Result<()> {
    crate::read_each(
        rt,
        &[
            ("datagram of 16384", &datagram(MOST_BYTES)),
            ("datagram of 16385", &datagram(MOST_BYTES + 1)),
        ],
    )
}

fn outputs(rt: &impl Print) -> io::Result<()> {
    let value = [0; MAX_VALUE + 1];
    let mut out = [0; CAPSULE_ROOM];
    for (size, room) in [
        (MAX_VALUE, CAPSULE_ROOM),
        (MAX_VALUE, CAPSULE_ROOM - 1),
        (MAX_VALUE + 1, CAPSULE_ROOM),
    ] {
        let answer = capsule_write::write_datagram(&value[..size], &mut out[..room]);
        println!(rt; "{size} written to {room}: {}", Counted(answer))?;
    }
    Ok(())
}

// A capsule of n entries, 192.0.2.1 and so on, with Request IDs 1 and so on; the length takes two bytes.
fn entries(kind: u8, n: u8) -> [u8; ENTRIES_ROOM] {
    let mut out = [0; ENTRIES_ROOM];
    let [high, low] = (0x4000 | ENTRY as u16 * u16::from(n)).to_be_bytes();
    out[..HEAD].copy_from_slice(&[kind, high, low]);
    for (host, entry) in (1..=n).zip(out[HEAD..].chunks_exact_mut(ENTRY)) {
        entry.copy_from_slice(&[host, 4, 192, 0, 2, host, 32]);
    }
    out
}

// A capsule of n ranges of two addresses, 198.51.100.0 and so on, for UDP.
fn ranges(n: u16) -> [u8; RANGES_ROOM]
    requires { n ≤ max_ranges + 1 }
{
    let mut out = [0; RANGES_ROOM];
    let [high, low] = (0x4000 | RANGE as u16 * n).to_be_bytes();
    out[..HEAD].copy_from_slice(&[3, high, low]);
    let starts = (0x6400..0x6400 + 2 * n).step_by(2);
    for (start, range) in starts.zip(out[HEAD..].chunks_exact_mut(RANGE)) {
        let [net, host] = start.to_be_bytes();
        range.copy_from_slice(&[4, 198, 51, net, host, 198, 51, net, host | 1, 17]);
    }
    out
}

// A DATAGRAM of so many bytes; the length takes four.
fn datagram(length: u32) -> [u8; MAX_VALUE + 6] {
    let mut out = [0; MAX_VALUE + 6];
    out[1..5].copy_from_slice(&(0x8000_0000 | length).to_be_bytes());
    out
}
