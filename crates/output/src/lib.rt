// Bytes put at a place of a lent output: each function hands back the place behind them, and every other byte stays as it was.
// Inner functions of the writers above, which have tested that there is room.
// The output and the place stay two parameters: `Put`, by which every contract above says what is written, is of the two, and callers are lent the output.
#![tactic(auto)]

ghost use Rattle.std.specs.Prelude.{◌+◌, ◌<◌, ◌≤◌, [], ◌∷◌, length};
ghost use Rattle.octets.specs.Big.{digits};
ghost use Rattle.output.specs.Places.{Put};

pub fn put_byte(out: &mut [u8], at: usize, b: u8) -> usize
    requires { at < length out.old }
    ensures { Put (b ∷ []) at out.old result out.new }
{
    out[at] = b;
    at + 1
}

pub fn put_bytes(out: &mut [u8], at: usize, value: &[u8]) -> usize
    requires { at + length value.now ≤ length out.old }
    ensures { Put value.now at out.old result out.new }
{
    let n = value.len();
    out[at..at + n].copy_from_slice(value);
    at + n
}

// The n lowest bytes of v, big-endian.
pub fn put_digits(out: &mut [u8], at: usize, n: usize, v: u64) -> usize
    requires { at + n ≤ length out.old }
    ensures { Put (digits n v) at out.old result out.new }
{
    octets::put_digits(&mut out[at..], n, v);
    at + n
}
