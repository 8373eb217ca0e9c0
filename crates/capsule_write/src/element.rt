// An element of a list that is written: where the words of a list hold it, and its bytes.
ghost use Rattle.std.specs.Prelude.{◌≡◌, refl, ℕ, List, Bool, true, false, ◌&&◌, ◌||◌, ◌+◌, ◌*◌, ◌<◌, ◌≤◌, eqb, length};
ghost use Rattle.std.proofs.Common.{lit≤};
ghost use Rattle.octets.specs.Scan.{any_of};
ghost use Rattle.lists.specs.Rules.{id_of};
ghost use Rattle.lists.specs.Words.{max_addresses, max_ranges, address_words, route_words, entry_at, range_at};
ghost use Rattle.capsule.specs.Elements.{Format};
ghost use Rattle.capsule.specs.Entries.{address_bytes, ends_bytes, entry_format, range_format, newest};
ghost use Rattle.capsule.specs.Capsules.{max_value};
ghost use Rattle.output.specs.Places.{Put};
ghost use Rattle.capsule_write.specs.Earlier.{earlier};
ghost use Rattle.capsule_write.specs.Verdicts.{element_verdict};
ghost use Rattle.capsule_write.specs.Sizes.{max_entry, max_range};

use answer::Refusal;
use lists::{AddressEntry, MAX_ADDRESSES, MAX_RANGES, RouteRange};

pub(crate) trait Element: Copy {
    // In a list that is a request, or in another.
    ghost format: { Bool → Format Self };

    // Element i of the words.
    ghost at: { List ℕ → ℕ → Self };

    // How many words a list has, how many elements at most, and how many bytes of each at most.
    ghost words: { ℕ };

    ghost LIMIT: { ℕ };

    ghost most: { ℕ };

    const LIMIT: usize;

    fn stored(w: &[u64], i: usize) -> Self
        requires words_in_bounds { words ≤ length w.now }
        requires i_lt_limit { i < LIMIT }
        ensures { result ≡ at w.now i };

    // The fault of element i, by itself and behind those before it.
    fn fault(self, w: &[u64], i: usize, request: bool) -> Result<(), Refusal>
        requires words_in_bounds { words ≤ length w.now }
        requires i_lt_limit { i < LIMIT }
        ensures { result ≡ element_verdict (format request) (earlier (at w.now) i) self };

    fn size(self) -> usize
        ensures { (result ≡ length ((format false).bytes self)) × (result ≤ most) };

    fn put(self, out: &mut [u8], start: usize) -> usize
        requires sound { (format false).sound self ≡ true }
        requires room { start + most ≤ length out.old }
        ensures bytes { Put ((format false).bytes self) start out.old result out.new }
        ensures bound { result ≤ start + most };

    // The count has a word, and the value of a list is within its limit.
    ghost counted: { 1 ≤ words };

    ghost fits: { most * LIMIT ≤ max_value };

    // A request asks more of its elements together, and no more of each.
    ghost alike: { (a : Bool) → ((format a).bytes ≡ (format false).bytes) × ((format a).sound ≡ (format false).sound) };
}

// Request ID, version, address, prefix length.
impl Element for AddressEntry {
    ghost format = { entry_format };

    ghost at = { entry_at };

    ghost words = { address_words };

    ghost LIMIT = { max_addresses };

    ghost most = { max_entry };

    const LIMIT: usize = MAX_ADDRESSES;

    fn stored(w: &[u64], i: usize) -> AddressEntry {
        lists::entry_at(w, i)
    }

    fn fault(self, w: &[u64], i: usize, request: bool) -> Result<(), Refusal> {
        if !lists::entry_sound(self) {
            return Err(Refusal::BadAddress);
        }
        let id = self.request_id;
        if id_refused(w, i, request, id.0) {
            return Err(Refusal::BadRequestId);
        }
        Ok(())
    }

    fn size(self) -> usize {
        let id = self.request_id;
        let n = varint::size(id.0);
        if self.version == 4 {
            return n + 6;
        }
        n + 18
    }

    fn put(self, out: &mut [u8], start: usize) -> usize {
        let id = self.request_id;
        let version = varint::put_number(out, start, id.0);
        let address = output::put_byte(out, version, self.version);
        let prefix = put_address(out, address, self);
        output::put_byte(out, prefix, self.prefix)
    }

    ghost counted = { lit≤ tt };

    ghost fits = { lit≤ tt };

    ghost alike = { λ a. (refl, refl) };
}

// Whether the Request ID of entry i of a request is zero, or that of an entry before it.
fn id_refused(w: &[u64], i: usize, request: bool, id: u64) -> bool
    requires address_words_in_bounds { address_words ≤ length w.now }
    requires i_le_max_addresses { i ≤ max_addresses }
    ensures { result ≡ (request && (eqb id 0 || any_of (λ d. eqb (id_of d) id) (earlier (entry_at w.now) i))) }
{
    if !request {
        return false;
    }
    if id == 0 {
        return true;
    }
    for k in (0..i).rev() {
        let e = lists::entry_at(w, k);
        let other = e.request_id;
        if other.0 == id {
            return true;
        }
    }
    false
}

fn put_address(out: &mut [u8], at: usize, e: AddressEntry) -> usize
    requires { at + 16 ≤ length out.old }
    ensures { Put (address_bytes e) at out.old result out.new }
{
    if e.version == 4 {
        return output::put_digits(out, at, 4, e.lo);
    }
    let low = output::put_digits(out, at, 8, e.hi);
    output::put_digits(out, low, 8, e.lo)
}

// Version, start, end, protocol.
impl Element for RouteRange {
    ghost format = { λ request. range_format };

    ghost at = { range_at };

    ghost words = { route_words };

    ghost LIMIT = { max_ranges };

    ghost most = { max_range };

    const LIMIT: usize = MAX_RANGES;

    fn stored(w: &[u64], i: usize) -> RouteRange {
        lists::range_at(w, i)
    }

    fn fault(self, w: &[u64], i: usize, _request: bool) -> Result<(), Refusal> {
        if !lists::range_sound(self) {
            return Err(Refusal::BadRange);
        }
        if !lists::in_order(range_before(w, i), self) {
            return Err(Refusal::RangesOutOfOrder);
        }
        Ok(())
    }

    fn size(self) -> usize {
        if self.version == 4 {
            return 10;
        }
        34
    }

    fn put(self, out: &mut [u8], start: usize) -> usize {
        let ends = output::put_byte(out, start, self.version);
        let protocol = put_ends(out, ends, self);
        output::put_byte(out, protocol, self.protocol)
    }

    ghost counted = { lit≤ tt };

    ghost fits = { lit≤ tt };

    ghost alike = { λ a. (refl, refl) };
}

// The range before range i, or before every range.
fn range_before(w: &[u64], i: usize) -> RouteRange
    requires route_words_in_bounds { route_words ≤ length w.now }
    requires i_lt_max_ranges { i < max_ranges }
    ensures { result ≡ newest (earlier (range_at w.now) i) }
{
    if i == 0 {
        return lists::before_all();
    }
    lists::range_at(w, i - 1)
}

fn put_ends(out: &mut [u8], at: usize, r: RouteRange) -> usize
    requires { at + 32 ≤ length out.old }
    ensures { Put (ends_bytes r) at out.old result out.new }
{
    if r.version == 4 {
        let end = output::put_digits(out, at, 4, r.start_lo);
        return output::put_digits(out, end, 4, r.end_lo);
    }
    let a = output::put_digits(out, at, 8, r.start_hi);
    let b = output::put_digits(out, a, 8, r.start_lo);
    let c = output::put_digits(out, b, 8, r.end_hi);
    output::put_digits(out, c, 8, r.end_lo)
}
