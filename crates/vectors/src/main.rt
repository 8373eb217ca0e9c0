// Runs the numbers of RFC 9000, appendix A.1, and the drivers' examples through the box, and writes what came out, to be compared with the
// file `stdout`.
#![tactic(auto)]

mod limits; // limits.rt: at the limits and one past them
mod packet; // packet.rt: sending and receiving
mod pieces; // pieces.rt: the stream in pieces
mod plan_file; // plan_file.rt: plan files

use answer::Refusal;
use capsule::{CapsuleRead, Kind};
use print::{Hex, Refused, Written};
use std::{fmt, io};
use varint::Number;

// A number as `varint` writes it, or the refusal.
#[derive(Drop)]
struct Encoded(u64);

// What the bytes read as: the kind, the elements of the list, and where reading goes on; or the refusal.
#[derive(Drop)]
struct Reading<'a> {
    bytes: &'a [u8],
    read: Result<CapsuleRead, Refusal>,
}

fn main(rt: HostRuntime) -> io::Result<()> {
    numbers(&rt)?;
    capsules(&rt)?;
    limits::limits(&rt)?;
    pieces::pieces(&rt)?;
    packet::packets(&rt)?;
    plan_file::plans(&rt)
}

// Each number is read, and its value written again: a longer form is accepted, and not made.
fn numbers(rt: &impl Print) -> io::Result<()> {
    println!(rt; "numbers")?;
    let numbers: [&[u8]; 8] = [
        b"\xc2\x19\x7c\x5e\xff\x14\xe8\x8c",
        b"\x9d\x7f\x3e\x7d",
        b"\x7b\xbd",
        b"\x25",
        b"\x40\x25",
        b"\xff\xff\xff\xff\xff\xff\xff\xff",
        b"\x9d\x7f\x3e",
        b"",
    ];
    for bytes in numbers {
        let hex = Hex(bytes);
        match varint::read(bytes) {
            Some(Number { value, size }) => {
                println!(rt; "{hex} {value} in {size} written {}", Encoded(value))?
            }
            None => println!(rt; "{hex} {}", Refused(Refusal::Incomplete))?,
        }
    }
    println!(rt; "too large {}", Encoded(1 << 62))
}

// Each capsule is read from the front of a buffer.
fn capsules(rt: &impl Print) -> io::Result<()> {
    println!(rt; "capsules")?;
    addresses(rt)?;
    forms(rt)?;
    rules(rt)?;
    print!(rt; "cut ")?;
    cuts(rt, b"\x01\x07\x00\x04\xc0\x00\x02\x03\x20")?;
    println!(rt; "walk")?;
    walk(
        rt,
        b"\x01\x07\x00\x04\xc0\x00\x02\x03\x20\x52\x34\x03\x01\x02\x03\x00\x02\xaa\xbb\x03\x00\x02",
    )
}

// Each capsule of a buffer in turn, up to the first refusal.
fn walk(rt: &impl Print, bytes: &[u8]) -> io::Result<()> {
    let mut at = 0;
    // a step is as long as the capsule that was read, so no range has these places
    while at < bytes.len() {
        let (read, next) = match walker::read_at(bytes, at) {
            Ok(capsule) => (Ok(capsule), capsule.next),
            Err(refused) => (Err(refused.why), refused.at),
        };
        println!(rt; "{}", Reading { bytes, read })?;
        if next <= at {
            break;
        }
        at = next;
    }
    Ok(())
}

fn addresses(rt: &impl Print) -> io::Result<()> {
    read_each(
        rt,
        &[
            ("the example", b"\x01\x07\x00\x04\xc0\x00\x02\x03\x20"),
            ("empty assignment", b"\x01\x00"),
            ("empty request", b"\x02\x00"),
        ],
    )
}

// Longer numbers, other types and lengths.
fn forms(rt: &impl Print) -> io::Result<()> {
    read_each(
        rt,
        &[
            (
                "longer numbers",
                b"\x40\x01\x80\x00\x00\x08\x40\x00\x04\xc0\x00\x02\x03\x20",
            ),
            ("unknown type", b"\x52\x34\x03\x01\x02\x03"),
            (
                "unknown type of length 2^62 - 1",
                b"\x04\xff\xff\xff\xff\xff\xff\xff\xff\x00\x00\x00\x00\x00\x00\x00\x00",
            ),
            ("datagram", b"\x00\x03\x01\x02\x03"),
            ("length 16384", b"\x01\x80\x00\x40\x00"),
            ("length 16385", b"\x01\x80\x00\x40\x01"),
        ],
    )
}

// Entries and ranges that break a rule, and no capsule.
fn rules(rt: &impl Print) -> io::Result<()> {
    read_each(
        rt,
        &[
            ("prefix 33", b"\x01\x07\x00\x04\xc0\x00\x02\x03\x21"),
            (
                "bits beyond the prefix",
                b"\x01\x07\x00\x04\xc0\x00\x02\x01\x18",
            ),
            (
                "range ends before it starts",
                b"\x03\x0a\x04\xc6\x33\x64\x03\xc6\x33\x64\x02\x11",
            ),
            (
                "touching ranges",
                b"\x03\x14\x04\xc6\x33\x64\x02\xc6\x33\x64\x09\x11\x04\xc6\x33\x64\x09\xc6\x33\x64\x0c\x11",
            ),
            ("no bytes", b""),
        ],
    )
}

// What the front of each buffer reads as.
fn read_each(rt: &impl Print, buffers: &[(&str, &[u8])]) -> io::Result<()> {
    for (name, bytes) in buffers {
        let read = capsule::read(bytes, 0);
        println!(rt; "{name}: {}", Reading { bytes, read })?;
    }
    Ok(())
}

// The number of each proper front of a capsule.
fn cuts(rt: &impl Print, bytes: &[u8]) -> io::Result<()> {
    for end in 0..bytes.len() {
        print!(rt; "{}", answer::number_of(&capsule::read(&bytes[..end], 0)))?;
    }
    println!(rt)
}

impl fmt::Display for Encoded {
    fn fmt<W: fmt::Write>(&self, f: &mut fmt::Formatter<W>) -> fmt::Result {
        let mut out = [0; 8];
        let answer = varint::write(self.0, &mut out);
        write!(f, "{}", Written { answer, out: &out })
    }
}

impl fmt::Display for Reading<'_> {
    fn fmt<W: fmt::Write>(&self, f: &mut fmt::Formatter<W>) -> fmt::Result {
        let CapsuleRead {
            kind,
            start,
            length,
            next,
        } = match self.read {
            Ok(capsule) => capsule,
            Err(why) => return write!(f, "{}", Refused(why)),
        };
        match (kind, self.bytes.get(start..next)) {
            (Kind::Datagram, _) => write!(f, "datagram at {start} of {length} next {next}"),
            (Kind::Other, _) => write!(f, "skipped next {next}"),
            (Kind::AddressAssign, Some(value)) => {
                write!(f, "assigned {} next {next}", entries(value, false))
            }
            (Kind::AddressRequest, Some(value)) => {
                write!(f, "requested {} next {next}", entries(value, true))
            }
            (Kind::RouteAdvertisement, Some(value)) => {
                write!(f, "advertised {} next {next}", ranges(value))
            }
            (_, None) => Ok(()),
        }
    }
}

// How many entries a value has.
fn entries(value: &[u8], request: bool) -> u64 {
    match capsule::entries_in(value, request) {
        Ok(list) => list.words[0],
        Err(_) => 0,
    }
}

// How many ranges a value has.
fn ranges(value: &[u8]) -> u64 {
    match capsule::ranges_in(value) {
        Ok(list) => list.words[0],
        Err(_) => 0,
    }
}
