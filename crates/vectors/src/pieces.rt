// The stream in pieces: each piece is handed in, and what came of it is written: the capsule, or the number, and how many bytes were taken.
use capsule::{Kind, MAX_VALUE};
use lists::ADDRESS_WORDS;
use print::Refused;
use state::{RECEIVED_AT, STATE_WORDS, STORE_AT};
use std::io;
use stream::{Call, KEPT_SIZE};

// The end that reads the stream, and what it keeps of a capsule that is not all there.
#[derive(Drop)]
struct Reader {
    state: [u64; STATE_WORDS],
    kept: [u8; KEPT_SIZE],
}

pub(crate) fn pieces(rt: &impl Print) -> io::Result<()> {
    println!(rt; "pieces")?;
    cut_anywhere(rt)?;
    skipped(rt)?;
    too_long(rt)?;
    refused_value(rt)?;
    lent(rt)
}

// A list and a DATAGRAM that are cut, and no bytes between capsules and inside one.
fn cut_anywhere(rt: &impl Print) -> io::Result<()> {
    let mut reader = Reader::new();
    reader.feed(
        rt,
        &[
            ("no bytes", b""),
            ("a type", b"\x01"),
            ("no bytes in a capsule", b""),
            ("a length and half a list", b"\x07\x00\x04\xc0"),
            ("its end and the next capsule", b"\x00\x02\x03\x20\x00\x03"),
            ("what was left", b"\x00\x03"),
            ("a value", b"\x01\x02\x03"),
            (
                "a request, all there",
                b"\x02\x07\x05\x04\xc0\x00\x02\x03\x20",
            ),
        ],
    )
}

// A type that is not known, and one of the largest length.
fn skipped(rt: &impl Print) -> io::Result<()> {
    let mut reader = Reader::new();
    reader.feed(
        rt,
        &[
            ("unknown type", b"\x52\x34\x03\x01"),
            ("the rest of it", b"\x02\x03\x02"),
            (
                "unknown type of length 2^62 - 1",
                b"\x04\xff\xff\xff\xff\xff\xff\xff\xff\x00",
            ),
            ("two bytes of it", b"\x00\x00"),
        ],
    )?;
    println!(rt; "still to come: {}", reader.state[STORE_AT + 1])?;
    println!(rt; "kept: {}", reader.state[STORE_AT])
}

// 2 as soon as the length is there, and then each time.
fn too_long(rt: &impl Print) -> io::Result<()> {
    let mut reader = Reader::new();
    reader.feed(
        rt,
        &[
            ("all but a byte of a length", b"\x01\x80\x00\x40"),
            ("length 16385", b"\x01"),
            ("after it", b"\x01\x00"),
        ],
    )
}

// A fault inside a value, when all of it is there.
fn refused_value(rt: &impl Print) -> io::Result<()> {
    let mut reader = Reader::new();
    reader.feed(
        rt,
        &[
            (
                "all but a byte of prefix 33",
                b"\x01\x07\x00\x04\xc0\x00\x02\x03",
            ),
            ("prefix 33", b"\x21"),
            ("after it", b""),
        ],
    )
}

// 16 and 9 are not remembered.
fn lent(rt: &impl Print) -> io::Result<()> {
    let mut reader = Reader::new();
    reader.feed_into(
        rt,
        &[("small output", b"\x00\x01\x07")],
        &mut [0; MAX_VALUE - 1],
    )?;
    reader.state[STORE_AT] = KEPT_SIZE as u64;
    reader.feed(rt, &[("broken store", b"\x00\x01\x07")])?;
    reader.state[STORE_AT] = 0;
    reader.feed(rt, &[("mended", b"\x00\x01\x07")])
}

impl Reader {
    fn new() -> Reader {
        Reader {
            state: [0; STATE_WORDS],
            kept: [0; KEPT_SIZE],
        }
    }

    fn feed(&mut self, rt: &impl Print, pieces: &[(&str, &[u8])]) -> io::Result<()> {
        self.feed_into(rt, pieces, &mut [0; MAX_VALUE])
    }

    // Each piece in turn, and what came of it: a value in the output, how many entries a list has, or the refusal.
    fn feed_into(
        &mut self,
        rt: &impl Print,
        pieces: &[(&str, &[u8])],
        out: &mut [u8],
    ) -> io::Result<()> {
        for (name, bytes) in pieces {
            let mut requested = [0; ADDRESS_WORDS];
            let read = stream::feed(&mut self.state, &mut self.kept, bytes, out, &mut requested);
            print!(rt; "{name}: ")?;
            let piece = match read {
                Ok(piece) => piece,
                Err(why) => {
                    println!(rt; "{} took 0", Refused(why))?;
                    continue;
                }
            };
            match piece.call {
                Call::Handed {
                    kind: Kind::Datagram,
                    length,
                } => print!(rt; "datagram {}", print::front(out, length))?,
                Call::Handed {
                    kind: Kind::AddressAssign,
                    ..
                } => print!(rt; "assigned {}", self.state[RECEIVED_AT])?,
                Call::Handed {
                    kind: Kind::AddressRequest,
                    ..
                } => print!(rt; "requested {}", requested[0])?,
                Call::Handed { .. } => print!(rt; "skipped")?,
                Call::Between => print!(rt; "between capsules")?,
                Call::Wait => print!(rt; "wait")?,
            }
            println!(rt; " took {}", piece.taken)?;
        }
        Ok(())
    }
}
