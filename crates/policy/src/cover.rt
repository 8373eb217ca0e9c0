// Address entries and the addresses they cover.
ghost use Rattle.std.specs.Prelude.{◌≡◌, ◌≤◌, eqb, length};
ghost use Rattle.octets.specs.Wide.{wide};
ghost use Rattle.octets.specs.Scan.{any_of};
ghost use Rattle.lists.specs.Rules.{width_of};
ghost use Rattle.lists.specs.Words.{max_addresses, address_words, count_of, entries_of};
ghost use Rattle.policy.specs.Granted.{declined, beyond, high_bits, covers};

use inet::Address;
use lists::AddressEntry;

// Whether some entry covers an address.
pub(crate) fn any_covers(w: &[u64], a: Address) -> bool
    requires address_words_in_bounds { address_words ≤ length w.now }
    requires count_bound { count_of w.now ≤ max_addresses }
    ensures { result ≡ any_of (covers a) (entries_of w.now) }
{
    let n = w[0] as usize;
    for i in 0..n {
        let e = lists::entry_at(w, i);
        if covers(e, a) {
            return true;
        }
    }
    false
}

// Whether an entry covers an address. Few entries agree with it: only those are asked whether they were declined.
fn covers(e: AddressEntry, a: Address) -> bool
    ensures { result ≡ covers a e }
{
    e.version == a.version && same_high(beyond(e), e.hi, e.lo, a.hi, a.lo) && !is_declined(e)
}

// Whether an entry is a declined request.
fn is_declined(e: AddressEntry) -> bool
    ensures { result ≡ declined e }
{
    e.hi == 0 && e.lo == 0 && e.prefix == width(e.version)
}

// The number of address bits beyond an entry's prefix; 0 where the prefix is longer than the address.
fn beyond(e: AddressEntry) -> u64
    ensures { result ≡ beyond e }
{
    width(e.version).saturating_sub(e.prefix) as u64
}

// The bits of an address.
fn width(version: u8) -> u8
    ensures { result ≡ width_of version }
{
    if version == 4 { 32 } else { 128 }
}

// Whether two numbers of 128 bits agree in all but the k lowest bits. They come as words, as in `granted`.
fn same_high(k: u64, a_hi: u64, a_lo: u64, b_hi: u64, b_lo: u64) -> bool
    ensures { result ≡ eqb (high_bits k (wide a_hi a_lo)) (high_bits k (wide b_hi b_lo)) }
{
    if k < 64 {
        // as one `&&` this shifts both low words first, which takes longer where the high ones differ
        if a_hi != b_hi {
            return false;
        }
        a_lo >> k == b_lo >> k
    } else if k < 128 {
        a_hi >> (k - 64) == b_hi >> (k - 64)
    } else {
        true
    }
}
