// Numbers as bytes and as words: the big-endian value of up to 8 bytes, the bytes of a number, numbers of 128 bits in two words of 64,
// and bytes copied.
// The inner functions of the codecs above; each says what it requires, and no entry point of the box is here.
#![tactic(auto)]

ghost use Rattle.std.specs.Prelude.{◌≡◌, ◌++◌, ◌+◌, ◌-◌, ◌*◌, ◌<◌, ◌≤◌, ◌^◌, leb, ltb, length, take, drop};
ghost use Rattle.octets.specs.Big.{big_from, big_at, digits};
ghost use Rattle.octets.specs.Wide.{wide, low_zero};

// The big-endian value of the bytes of s, after the digits that start stands for.
pub fn big_from(start: u64, s: &[u8]) -> u64
    requires { (length s.now ≤ 8) × (start < 256 ^ (8 - length s.now)) }
    ensures { (result ≡ big_from start s.now) × (result < (start + 1) * 256 ^ length s.now) }
{
    let mut acc = start;
    for &b in s {
        acc = acc * 256 + (b as u64);
    }
    acc
}

// The big-endian value of the n bytes at a place.
pub fn big_at(s: &[u8], at: usize, n: usize) -> u64
    requires { (n ≤ 8) × (at + n ≤ length s.now) }
    ensures { (result ≡ big_at at n s.now) × (result < 256 ^ n) }
{
    let end = at + n;
    big_from(0, &s[at..end])
}

// Writes the n lowest bytes of v, big-endian, to the front of out.
pub fn put_digits(out: &mut [u8], n: usize, v: u64)
    requires { n ≤ length out.old }
    ensures { out.new ≡ digits n v ++ drop n out.old }
{
    let mut rest = v;
    for i in (0..n).rev() {
        out[i] = (rest % 256) as u8;
        rest /= 256;
    }
}

// a ≤ b, as numbers of 128 bits: not b < a.
pub fn at_most(a_hi: u64, a_lo: u64, b_hi: u64, b_lo: u64) -> bool
    ensures { result ≡ leb (wide a_hi a_lo) (wide b_hi b_lo) }
{
    !below(b_hi, b_lo, a_hi, a_lo)
}

// a < b, as numbers of 128 bits. The high words are asked for `<` first: asked for `==` first, the compiler makes one test of all four words, which waits for
// each of them. Tried: of the order of two pairs, and of two u128, it makes such a test too.
pub fn below(a_hi: u64, a_lo: u64, b_hi: u64, b_lo: u64) -> bool
    ensures { result ≡ ltb (wide a_hi a_lo) (wide b_hi b_lo) }
{
    if a_hi < b_hi {
        return true;
    }
    if a_hi == b_hi {
        return a_lo < b_lo;
    }
    false
}

// Whether the k lowest bits of x are 0.
fn low_zero(k: u64, x: u64) -> bool
    ensures { result ≡ low_zero k x }
{
    if k < 64 { (x >> k) << k == x } else { x == 0 }
}

// The same of a number of 128 bits.
pub fn low_zero_wide(k: u64, hi: u64, lo: u64) -> bool
    requires { k ≤ 128 }
    ensures { result ≡ low_zero k (wide hi lo) }
{
    if k < 64 {
        return low_zero(k, lo);
    }
    if lo == 0 {
        return low_zero(k - 64, hi);
    }
    false
}

// Copies all of src to the front of dst, and returns its length.
pub fn copy(src: &[u8], dst: &mut [u8]) -> usize
    requires { length src.now ≤ length dst.old }
    ensures value { result ≡ length src.now }
    ensures dst_after { dst.new ≡ take (length src.now) src.now ++ drop (length src.now) dst.old }
{
    let n = src.len();
    dst[..n].copy_from_slice(src);
    n
}
