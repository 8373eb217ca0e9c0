// The Internet checksum of RFC 1071 over byte slices.
ghost use Rattle.std.specs.Prelude.{◌≡◌, ◌≤◌, ◌<◌, ◌+◌, ◌*◌, ◌/◌, ◌%◌, length, take};
ghost use Rattle.inet.specs.Sum.{words, fold, SwappedWords};

// The big-endian word of two bytes.
pub fn word(hi: u8, lo: u8) -> u64
    ensures { (result ≡ hi * 256 + lo) × (result ≤ 65535) }
{
    u16::from_be_bytes([hi, lo]) as u64
}

// The first two words of s, each with its bytes swapped. This is one load of 32 bits, so that the loop of `sum_block` becomes one over vectors.
fn swapped_words(s: &[u8]) -> u32
    requires { 4 ≤ length s.now }
    ensures { SwappedWords s.now result }
{
    u32::from_le_bytes([s[0], s[1], s[2], s[3]])
}

// The lowest and the third byte, each where it stands: one AND with 0x00ff00ff.
fn even_bytes(w: u32) -> u32
    ensures { result ≡ w % 256 + 65536 * (w / 65536 % 256) }
{
    w & 16711935
}

// The sum of the words of at most three bytes; an odd last byte is a high half.
fn sum_pairs(s: &[u8]) -> u64
    requires { length s.now ≤ 3 }
    ensures { (result ≡ words s.now) × (result ≤ 131070) }
{
    let pair = if 2 <= s.len() { word(s[0], s[1]) } else { 0 };
    let odd = if s.len() % 2 == 1 {
        word(s[s.len() - 1], 0)
    } else {
        0
    };
    pair + odd
}

// The sum of the words of s, which is no longer than an IPv4 packet: of blocks so short that the bytes of one place add up to less than 65536.
pub(crate) fn sum_words(s: &[u8]) -> u64
    requires { length s.now ≤ 65535 }
    ensures { (result ≡ words s.now) × (result < 4294967296) }
{
    let quads = s.len() / 4;
    let mut sum: u64 = 0;
    let mut k: usize = 0;
    // tried: `chunks_exact`, by which a sum of 64 bytes takes 13 instructions more, and one of 1,500 takes 9
    while k + 256 < quads {
        sum += sum_block(&s[4 * k..], 256);
        k += 256;
    }
    sum += sum_block(&s[4 * k..], quads - k);
    sum + sum_pairs(&s[4 * quads..])
}

// The sum of the words of the first 4 * quads bytes, at most 256 times 4: the bytes of two places are added up in one number, which is of 32 bits, so
// that the loop becomes one over vectors.
fn sum_block(s: &[u8], quads: usize) -> u64
    requires { (4 * quads ≤ length s.now) × (quads ≤ 256) }
    ensures { (result ≡ words (take (4 * quads) s.now)) × (result ≤ 131070 * quads) }
{
    let mut high: u32 = 0;
    let mut low: u32 = 0;
    for k in 0..quads {
        let w = swapped_words(&s[4 * k..]);
        high += even_bytes(w);
        low += even_bytes(w / 256);
    }
    let h = (high % 65536 + high / 65536) as u64;
    let l = (low % 65536 + low / 65536) as u64;
    h * 256 + l
}

// A number that folds to what the words of s fold to: two words are one number of 32 bits, since 65536 is 1 more than 65535. For short s, of quads alone.
pub(crate) fn sum_quads(s: &[u8]) -> u64
    requires { (length s.now ≤ 60) × (length s.now % 4 ≡ 0) }
    ensures { (fold result ≡ fold (words s.now)) × (result < 1099511627776) }
{
    let mut acc: u64 = 0;
    for quad in s.chunks_exact(4) {
        acc += octets::big_at(quad, 0, 4);
    }
    acc
}

// The most bytes that are summed by quads: a loop over vectors takes longer to start than so few bytes take.
const SHORT: usize = 60;

// A number that folds to what the words of s fold to: of few bytes by quads, of many by blocks.
pub fn sum_bytes(s: &[u8]) -> u64
    requires { length s.now ≤ 65535 }
    ensures { (fold result ≡ fold (words s.now)) × (result < 2199023255552) }
{
    if s.len() <= SHORT {
        let n = s.len() / 4 * 4;
        return sum_quads(&s[..n]) + sum_pairs(&s[n..]);
    }
    sum_words(s)
}

// A sum folded to 16 bits.
pub fn folded(sum: u64) -> u64
    ensures { (result ≡ fold sum) × (result ≤ 65535) }
{
    if sum == 0 { 0 } else { (sum - 1) % 65535 + 1 }
}

// The sum of two words folded: one end-around carry.
pub(crate) fn folded_pair(sum: u64) -> u64
    requires { sum ≤ 131070 }
    ensures { (result ≡ fold sum) × (result ≤ 65535) }
{
    sum % 65536 + sum / 65536
}
