// QUIC's variable-length numbers (RFC 9000, section 16): 1, 2, 4 or 8 bytes, chosen by the top two bits of the first, the rest big-endian.
// Reading takes every form, also a longer one than needed; writing makes the shortest. A number that is not all there is refused with 1;
// writing refuses an output of less than 8 bytes with 16, and then a value of 2^62 or more with 3.
#![tactic(auto)]

ghost use Rattle.std.specs.Prelude.{◌≡◌, ◌+◌, ◌≤◌, ◌<◌, ◌^◌, ◌/◌, length};
ghost use Rattle.answer.specs.Verdict.{Writes};
ghost use Rattle.output.specs.Places.{Put};
ghost use Rattle.varint.specs.Numbers.{Read, reading_number, limit, encode, encoded_size, shortest, write_verdict};

use answer::Refusal;

// 2^62: the first value that no form holds.
pub const LIMIT: u64 = 4611686018427387904;

// The least output that a number is written to, whatever its size.
pub const ROOM: usize = 8;

// A number at the front of some bytes, and how many bytes it took.
#[derive(Clone, Copy, Debug, PartialEq, Eq)]
pub struct Number {
    pub value: u64,
    pub size: usize,
}

// 0 for a number that was read, 1 for one that is not all there.
pub fn number_of(read: Option<Number>) -> u8
    ensures { result ≡ reading_number read }
{
    answer::number_of(&read.ok_or(Refusal::Incomplete))
}

// The number at the front of the bytes, where all of it is there.
pub fn read(bytes: &[u8]) -> Option<Number>
    ensures { Read bytes.now result }
{
    if bytes.len() == 0 {
        return None;
    }
    let first = bytes[0];
    let size = size_of_form(first);
    if bytes.len() < size {
        return None;
    }
    let top = (first % 64) as u64;
    let value = octets::big_from(top, &bytes[1..size]);
    Some(Number { value, size })
}

// How many bytes a number takes whose first byte this is.
fn size_of_form(first: u8) -> usize
    ensures { (result ≡ 2 ^ (first / 64)) × (1 ≤ result) × (result ≤ 8) }
{
    let form = first / 64;
    if form == 0 {
        return 1;
    }
    if form == 1 {
        return 2;
    }
    if form == 2 {
        return 4;
    }
    8
}

// Writes the value in its shortest form to the front of out.
pub fn write(value: u64, out: &mut [u8]) -> Result<usize, Refusal>
    ensures { Writes (write_verdict value (length out.old)) (encode value) out.old result out.new }
{
    if out.len() < ROOM {
        return Err(Refusal::NoRoom);
    }
    if LIMIT <= value {
        return Err(Refusal::BadAddress);
    }
    Ok(put_number(out, 0, value))
}

// Puts the value in its shortest form at a place of the output, and returns the place behind it: for the writers above, which know that there is room.
pub fn put_number(out: &mut [u8], at: usize, value: u64) -> usize
    requires room { at + encoded_size value ≤ length out.old }
    requires value_lt_limit { value < limit }
    ensures { Put (encode value) at out.old result out.new }
{
    if value < 64 {
        return output::put_digits(out, at, 1, value);
    }
    if value < 16384 {
        return output::put_digits(out, at, 2, 16384 + value);
    }
    if value < 1073741824 {
        return output::put_digits(out, at, 4, 2147483648 + value);
    }
    output::put_digits(out, at, 8, 13835058055282163712 + value)
}

// How many bytes the shortest form of a value takes: 8 also for a value of 2^62 or more, which has none.
pub fn size(value: u64) -> usize
    ensures { result ≡ encoded_size value }
{
    if value < 64 {
        return 1;
    }
    if value < 16384 {
        return 2;
    }
    if value < 1073741824 {
        return 4;
    }
    8
}

// Whether a number that was read stood in its shortest form.
pub fn is_shortest(value: u64, taken: usize) -> bool
    ensures { result ≡ shortest value taken }
{
    taken == size(value)
}
