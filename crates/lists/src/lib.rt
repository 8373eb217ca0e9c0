// Address entries and route ranges (RFC 9484, sections 4.7.1 to 4.7.3), the rules of each, and lists of them.
// A list is one flat array of words: word 0 is the count, and each element has a fixed number of words after it. What stands past the
// count is 0 where the box made the list, and is ignored where one is handed in. Nothing here refuses: the tests answer yes or no.
#![tactic(auto)]

ghost use Rattle.std.specs.Prelude.{◌≡◌, true, ◌+◌, ◌*◌, ◌^◌, ◌≤◌, ◌<◌, ◌-◌, ◌&&◌, leb, ltb, cond, length, replicate};
ghost use Rattle.octets.specs.Wide.{wide, low_zero};
ghost use Rattle.lists.specs.Rules.{sound_entry, sound_range, in_order, before_all};
ghost use Rattle.lists.specs.Words.{max_addresses, max_ranges, address_words, route_words, entry_at, range_at, entries_of, ranges_of, put_entry, put_range, sound_addresses, sound_routes};
ghost use Rattle.lists.specs.Runs.{Ran};
ghost use Rattle.lists.specs.Joined.{Joins};

// The most entries of an address list, and the most ranges of a route list.
pub const MAX_ADDRESSES: usize = 32;

pub const MAX_RANGES: usize = 256;

// The words of an element, and of a list: the count and the elements.
pub const WORDS_PER_ENTRY: usize = 4;

pub const WORDS_PER_RANGE: usize = 5;

pub const ADDRESS_WORDS: usize = 1 + MAX_ADDRESSES * WORDS_PER_ENTRY;

pub const ROUTE_WORDS: usize = 1 + MAX_RANGES * WORDS_PER_RANGE;

// The first value that is no IPv4 address.
const IPV4_END: u64 = 4294967296;

// A Request ID (RFC 9484, section 4.7): no Context ID can stand in its place.
#[repr(C)]
#[derive(Clone, Copy)]
pub struct RequestId(pub u64);

// An address with its prefix length. IPv4 stands in `lo` with `hi` 0.
#[repr(C)]
#[derive(Clone, Copy)]
pub struct AddressEntry {
    pub request_id: RequestId,
    pub version: u8,
    pub prefix: u8,
    pub hi: u64,
    pub lo: u64,
}

// The addresses from start to end, both included, for one protocol; 0 stands for all.
#[repr(C)]
#[derive(Clone, Copy)]
pub struct RouteRange {
    pub version: u8,
    pub protocol: u8,
    pub start_hi: u64,
    pub start_lo: u64,
    pub end_hi: u64,
    pub end_lo: u64,
}

// A list of N words: the count and the elements.
#[repr(C)]
#[derive(Clone, Copy)]
pub struct WordList<const N: usize> {
    pub words: [u64; N],
}

// Entry i has the words 4 i + 1 to 4 i + 4: Request ID, version + 256 * prefix, hi, lo.
pub type AddressList = WordList<ADDRESS_WORDS>;

// Range i has the words 5 i + 1 to 5 i + 5: version + 256 * protocol, start, end.
pub type RouteList = WordList<ROUTE_WORDS>;

impl<const N: usize> WordList<N> {
    // The list of no elements.
    pub fn empty() -> WordList<N>
        ensures { result ≡ record { words = replicate N 0 } }
    {
        WordList { words: [0; N] }
    }
}

// Whether an entry keeps its rule.
pub fn entry_sound(e: AddressEntry) -> bool
    ensures { result ≡ sound_entry e }
{
    e.request_id.0 < varint::LIMIT
        && match e.version {
            4 => octets::below(e.hi, e.lo, 0, IPV4_END) && prefix_sound(e.prefix, 32, e.hi, e.lo),
            6 => prefix_sound(e.prefix, 128, e.hi, e.lo),
            _ => false,
        }
}

// Whether a prefix is within the width of an address, with 0 in the bits beyond it.
fn prefix_sound(prefix: u8, width: u8, hi: u64, lo: u64) -> bool
    requires { width ≤ 128 }
    ensures { result ≡ (leb prefix width && low_zero (width - prefix) (wide hi lo)) }
{
    prefix <= width && octets::low_zero_wide((width - prefix) as u64, hi, lo)
}

// Whether a range keeps its rule.
pub fn range_sound(r: RouteRange) -> bool
    ensures { result ≡ sound_range r }
{
    octets::at_most(r.start_hi, r.start_lo, r.end_hi, r.end_lo)
        && if r.version == 4 {
            octets::below(r.end_hi, r.end_lo, 0, IPV4_END)
        } else {
            r.version == 6
        }
}

// Whether range b may follow range a. The parts are compared one by one, since the last of them is not compared as the others are.
pub fn in_order(a: RouteRange, b: RouteRange) -> bool
    ensures { result ≡ in_order a b }
{
    if a.version != b.version {
        return a.version < b.version;
    }
    if a.protocol != b.protocol {
        return a.protocol < b.protocol;
    }
    octets::below(a.end_hi, a.end_lo, b.start_hi, b.start_lo)
}

// Entry i of the words.
pub fn entry_at(w: &[u64], i: usize) -> AddressEntry
    requires address_words_in_bounds { address_words ≤ length w.now }
    requires i_lt_max_addresses { i < max_addresses }
    ensures { result ≡ entry_at w.now i }
{
    let b = i * WORDS_PER_ENTRY;
    let request_id = RequestId(w[b + 1]);
    let tag = w[b + 2];
    let version = (tag % 256) as u8;
    let prefix = (tag / 256 % 256) as u8;
    let hi = w[b + 3];
    let lo = w[b + 4];
    AddressEntry {
        request_id,
        version,
        prefix,
        hi,
        lo,
    }
}

// Range i of the words. An entry and a range differ in their fields, and a trait of both would list these once more: here, and where they are stored.
pub fn range_at(w: &[u64], i: usize) -> RouteRange
    requires route_words_in_bounds { route_words ≤ length w.now }
    requires i_lt_max_ranges { i < max_ranges }
    ensures { result ≡ range_at w.now i }
{
    let b = i * WORDS_PER_RANGE;
    let tag = w[b + 1];
    let version = (tag % 256) as u8;
    let protocol = (tag / 256 % 256) as u8;
    let start_hi = w[b + 2];
    let start_lo = w[b + 3];
    let end_hi = w[b + 4];
    let end_lo = w[b + 5];
    RouteRange {
        version,
        protocol,
        start_hi,
        start_lo,
        end_hi,
        end_lo,
    }
}

// Stores entry i.
pub fn put_entry(w: &mut [u64; ADDRESS_WORDS], i: usize, e: AddressEntry)
    requires { i < max_addresses }
    ensures { w.new ≡ put_entry w.old i e }
{
    let b = i * WORDS_PER_ENTRY;
    let id = e.request_id;
    w[b + 1] = id.0;
    w[b + 2] = (e.version as u64) + 256 * (e.prefix as u64);
    w[b + 3] = e.hi;
    w[b + 4] = e.lo;
}

// Stores range i.
pub fn put_range(w: &mut [u64; ROUTE_WORDS], i: usize, r: RouteRange)
    requires { i < max_ranges }
    ensures { w.new ≡ put_range w.old i r }
{
    let b = i * WORDS_PER_RANGE;
    w[b + 1] = (r.version as u64) + 256 * (r.protocol as u64);
    w[b + 2] = r.start_hi;
    w[b + 3] = r.start_lo;
    w[b + 4] = r.end_hi;
    w[b + 5] = r.end_lo;
}

// The range before every range.
pub fn before_all() -> RouteRange
    ensures { result ≡ before_all }
{
    RouteRange {
        version: 0,
        protocol: 0,
        start_hi: 0,
        start_lo: 0,
        end_hi: 0,
        end_lo: 0,
    }
}

// Whether a list of at most one address keeps its rules: true says that it does. A longer one is not looked at, and false says nothing.
pub fn short_addresses(w: &[u64]) -> bool
    requires { address_words ≤ length w.now }
    ensures { result ≡ true → sound_addresses (entries_of w.now) ≡ true }
{
    match w[0] {
        0 => true,
        1 => entry_sound(entry_at(w, 0)),
        _ => false,
    }
}

// The same of a list of at most one range. One function of both would take a trait with the element, its test and the rule of the list.
pub fn short_routes(w: &[u64]) -> bool
    requires { route_words ≤ length w.now }
    ensures { result ≡ true → sound_routes (ranges_of w.now) ≡ true }
{
    match w[0] {
        0 => true,
        1 => range_sound(range_at(w, 0)),
        _ => false,
    }
}

// Entries of one tag put together: the bits of all their words, and where the next entry stands.
#[derive(Clone, Copy)]
pub struct Joined {
    pub next: usize,
    pub id: u64,
    pub hi: u64,
    pub lo: u64,
}

// The entries from i on that have its tag.
fn join(w: &[u64], i: usize, n: usize) -> Joined
    requires address_words_in_bounds { address_words ≤ length w.now }
    requires i_in_list { (i < n) × (n ≤ max_addresses) }
    ensures { Joins w.now i n result }
{
    let b = i * WORDS_PER_ENTRY;
    let mut id = w[b + 1];
    let tag = w[b + 2];
    let mut hi = w[b + 3];
    let mut lo = w[b + 4];
    for next in i + 1..n {
        let b = next * WORDS_PER_ENTRY;
        if w[b + 2] != tag {
            return Joined { next, id, hi, lo };
        }
        id |= w[b + 1];
        hi |= w[b + 3];
        lo |= w[b + 4];
    }
    Joined {
        next: n,
        id,
        hi,
        lo,
    }
}

// Whether the words are a sound list of addresses: the count within the limit, and every entry sound.
// Entries of one tag, version and prefix, are judged at once: all are sound where the bits of all of them are.
pub fn addresses_sound(w: &[u64]) -> bool
    requires { address_words ≤ length w.now }
    ensures { result ≡ sound_addresses (entries_of w.now) }
{
    let count = w[0];
    if (MAX_ADDRESSES as u64) < count {
        return false;
    }
    let n = count as usize;
    let mut i: usize = 0;
    // no `for`: a turn goes on to the next tag
    while i < n {
        let tag = w[i * WORDS_PER_ENTRY + 2];
        let all = join(w, i, n);
        let e = AddressEntry {
            request_id: RequestId(all.id),
            version: (tag % 256) as u8,
            prefix: (tag / 256 % 256) as u8,
            hi: all.hi,
            lo: all.lo,
        };
        if !entry_sound(e) {
            return false;
        }
        i = all.next;
    }
    true
}

// The bits of three words: 0 where all are 0.
fn bits_of(a: u64, b: u64, c: u64) -> u64
    ensures { (a ≤ result) × (b ≤ result) × (c ≤ result) × (result ≤ a + b + c) }
{
    a | b | c
}

// The end of a run of IPv4 ranges, where it is sound: nothing stands in a high word, and the last and greatest end is below 2^32.
fn ended(last: usize, high: u64, end: u64) -> Option<usize>
    ensures { result ≡ cond (ltb (high * 2 ^ 32 + end) (2 ^ 32)) (Some last) None }
{
    (high == 0 && end < IPV4_END).then_some(last)
}

// The run of IPv4 ranges behind range j, which is sound. The high words are judged at the end of the run, and so is the greatest end.
fn run4(w: &[u64], j: usize, n: usize) -> Option<usize>
    requires route_words_in_bounds { route_words ≤ length w.now }
    requires j_in_list { (j < n) × (n ≤ max_ranges) }
    requires range_j_sound { (sound_range (range_at w.now j) ≡ true) × ((range_at w.now j).version ≡ 4) }
    ensures { Ran w.now n j result }
{
    let b = j * WORDS_PER_RANGE;
    let tag = w[b + 1];
    let mut end = w[b + 5];
    let mut high: u64 = 0;
    for last in j..n - 1 {
        let b = (last + 1) * WORDS_PER_RANGE;
        let own = w[b + 1];
        if own != tag {
            return ended(last, high, end);
        }
        high = bits_of(high, w[b + 2], w[b + 4]);
        let start = w[b + 3];
        if start <= end {
            return None;
        }
        let next = w[b + 5];
        if next < start {
            return None;
        }
        end = next;
    }
    ended(n - 1, high, end)
}

// The run of IPv6 ranges behind range j: both words of each number count, so that only the walk is that of `run4`.
fn run6(w: &[u64], j: usize, n: usize) -> Option<usize>
    requires route_words_in_bounds { route_words ≤ length w.now }
    requires j_in_list { (j < n) × (n ≤ max_ranges) }
    requires range_j_sound { (sound_range (range_at w.now j) ≡ true) × ((range_at w.now j).version ≡ 6) }
    ensures { Ran w.now n j result }
{
    let b = j * WORDS_PER_RANGE;
    let tag = w[b + 1];
    let mut hi = w[b + 4];
    let mut lo = w[b + 5];
    for last in j..n - 1 {
        let b = (last + 1) * WORDS_PER_RANGE;
        let own = w[b + 1];
        if own != tag {
            return Some(last);
        }
        let start_hi = w[b + 2];
        let start_lo = w[b + 3];
        if !octets::below(hi, lo, start_hi, start_lo) {
            return None;
        }
        hi = w[b + 4];
        lo = w[b + 5];
        if !octets::at_most(start_hi, start_lo, hi, lo) {
            return None;
        }
    }
    Some(n - 1)
}

// The run behind range j, of its version: the place of its last range, where all behind its first are sound and in order.
// Words, place and count are not one struct: it would state as ghost fields what is required here, and prove it where it is made.
fn run_behind(w: &[u64], j: usize, n: usize, version: u8) -> Option<usize>
    requires route_words_in_bounds { route_words ≤ length w.now }
    requires j_in_list { (j < n) × (n ≤ max_ranges) }
    requires range_j_sound { (sound_range (range_at w.now j) ≡ true) × ((range_at w.now j).version ≡ version) }
    ensures { Ran w.now n j result }
{
    if version == 4 {
        run4(w, j, n)
    } else {
        run6(w, j, n)
    }
}

// Whether the words are a sound list of routes: the count within the limit, every range sound, neighbours in order.
// The first range of each run is judged by itself, and the run behind it by what is left to test there.
pub fn routes_sound(w: &[u64]) -> bool
    requires { route_words ≤ length w.now }
    ensures { result ≡ sound_routes (ranges_of w.now) }
{
    let count = w[0];
    if (MAX_RANGES as u64) < count {
        return false;
    }
    let n = count as usize;
    // short lists have no order to judge
    if n == 0 {
        return true;
    }
    if n == 1 {
        let r = range_at(w, 0);
        return range_sound(r);
    }
    let mut last = before_all();
    let mut i: usize = 0;
    // no `for`: a turn goes over a run
    while i < n {
        let r = range_at(w, i);
        if !range_sound(r) || !in_order(last, r) {
            return false;
        }
        let Some(k) = run_behind(w, i, n, r.version) else {
            return false;
        };
        last = range_at(w, k);
        i = k + 1;
    }
    true
}
