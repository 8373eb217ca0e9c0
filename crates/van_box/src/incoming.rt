// Records on standard input: one byte kind, two bytes big-endian length, and that many bytes.
ghost use Rattle.std.specs.Prelude.{◌≡◌, ◌<◌, ◌≤◌, length};
ghost use Rattle.van_box.specs.Incoming.{Fills, Sized, Keeps};

use std::io::Read;

// The bytes of a record in front of its body.
pub(crate) const RECORD_HEAD: usize = 3;

// The most bytes of a body: two bytes hold their number.
pub(crate) const MAX_RECORD: usize = 65535;

// Reads once, behind what is held, and answers how many bytes are held then: no more where the input ends, or cannot be read.
pub(crate) fn fill(from: &mut impl Read, input: &mut [u8], held: usize) -> usize
    requires { held ≤ length input.old }
    ensures { Fills held input.old result input.new }
{
    let got = from.read(&mut input[held..]);
    match got {
        Ok(more) => held + more,
        Err(_) => held,
    }
}

// How many bytes the record at a place takes: 0 where it is not all there.
pub(crate) fn record_size(bytes: &[u8], at: usize) -> usize
    requires { at ≤ length bytes.now }
    ensures { Sized bytes.now at result }
{
    let left = bytes.len() - at;
    if left < RECORD_HEAD {
        return 0;
    }
    let high = wide(bytes[at + 1]);
    let low = wide(bytes[at + 2]);
    let size = RECORD_HEAD + high * 256 + low;
    if left < size {
        return 0;
    }
    size
}

fn wide(b: u8) -> usize
    ensures value { result ≡ b }
    ensures upper_bound { result < 256 }
{
    b as usize
}

// Moves the bytes from a place up to the end to the front, and answers how many they are.
pub(crate) fn keep(input: &mut [u8], at: usize, end: usize) -> usize
    requires at_le_end { at ≤ end }
    requires end_in_bounds { end ≤ length input.old }
    ensures { Keeps at end input.old result input.new }
{
    let left = end - at;
    if at == 0 {
        return left;
    }
    input.copy_within(at..end, 0);
    left
}
