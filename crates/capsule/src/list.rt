// The lists of a capsule's value: element by element up to its end, or the first fault.
ghost use Rattle.std.specs.Prelude.{◌≡◌, true, false, ◌&&◌, ◌≤◌, eqb, length, replicate};
ghost use Rattle.answer.specs.Choice.{pick};
ghost use Rattle.lists.specs.Words.{max_addresses, max_ranges, address_words, route_words};
ghost use Rattle.capsule.specs.Elements.{elements_in};
ghost use Rattle.capsule.specs.Entries.{entry_format, range_format};
ghost use Rattle.capsule.specs.RequestIds.{ids_in, ids_refused};
ghost use Rattle.capsule.specs.Capsules.{max_value, max_entries, entries_in, ranges_in};
ghost use Rattle.capsule.specs.Results.{entries_result, ranges_result, ReadsEntries, ReadsRanges};

use crate::MAX_VALUE;
use crate::element::{read_entry, read_id, read_range};
use answer::Refusal;
use lists::{ADDRESS_WORDS, AddressList, MAX_ADDRESSES, MAX_RANGES, ROUTE_WORDS, RouteList};

// The fewest bytes of an entry: an ID of one byte, the version, four bytes of address, the prefix.
const MIN_ENTRY: usize = 7;

// The most entries that a value within the limit can hold.
const MAX_ENTRIES: usize = MAX_VALUE / MIN_ENTRY;

// The entries of a value of an ADDRESS_REQUEST, or else of an ADDRESS_ASSIGN.
pub fn entries_in(value: &[u8], request: bool) -> Result<AddressList, Refusal>
    ensures { result ≡ entries_result (entries_in request value.now) }
{
    let mut words = [0u64; ADDRESS_WORDS];
    entries_into(value, request, &mut words)?;
    Ok(AddressList { words })
}

// The ranges of a value of a ROUTE_ADVERTISEMENT.
pub fn ranges_in(value: &[u8]) -> Result<RouteList, Refusal>
    ensures { result ≡ ranges_result (ranges_in value.now) }
{
    let mut words = [0u64; ROUTE_WORDS];
    ranges_into(value, &mut words)?;
    Ok(RouteList { words })
}

// An inner function for `exchange`: `entries_in` into lent words, since a list by value is copied once more. It asks for words that are
// cleared, and on a refusal they mean nothing.
pub fn entries_into(
    value: &[u8],
    request: bool,
    words: &mut [u64; ADDRESS_WORDS],
) -> Result<(), Refusal>
    requires { words.old ≡ replicate address_words 0 }
    ensures { ReadsEntries (entries_in request value.now) result words.new }
{
    if MAX_VALUE < value.len() {
        return Err(Refusal::TooLong);
    }
    read_entries(value, request, words)
}

// An inner function for `exchange`: `ranges_in` in the same way, into words that are cleared, and that mean nothing on a refusal.
pub fn ranges_into(value: &[u8], words: &mut [u64; ROUTE_WORDS]) -> Result<(), Refusal>
    requires { words.old ≡ replicate route_words 0 }
    ensures { ReadsRanges (ranges_in value.now) result words.new }
{
    if MAX_VALUE < value.len() {
        return Err(Refusal::TooLong);
    }
    read_ranges(value, words)
}

// The entries of a request, or else of an assignment.
fn read_entries(
    value: &[u8],
    request: bool,
    words: &mut [u64; ADDRESS_WORDS],
) -> Result<(), Refusal>
    requires value_len_bound { length value.now ≤ max_value }
    requires words_blank { words.old ≡ replicate address_words 0 }
    ensures { ReadsEntries (elements_in (entry_format request) request max_addresses value.now) result words.new }
{
    let mut count: usize = 0;
    let mut at: usize = 0;
    // no `for`: each entry says where the next one starts, and an iterator of our own would be this loop again
    while at < value.len() {
        let Some(read) = read_entry(&value[at..]) else {
            if ids_refused(value, request, count) {
                return Err(Refusal::BadRequestId);
            }
            return Err(Refusal::BadAddress);
        };
        if count < MAX_ADDRESSES {
            lists::put_entry(words, count, read.entry);
        }
        count += 1;
        at += read.size;
    }
    if ids_refused(value, request, count) {
        return Err(Refusal::BadRequestId);
    }
    if request && count == 0 {
        return Err(Refusal::BadRequestId);
    }
    if MAX_ADDRESSES < count {
        return Err(Refusal::TooMany);
    }
    words[0] = count as u64;
    Ok(())
}

// Whether this is a request, and of the IDs before its end or its first bad entry, `count` of them, one is zero or two are equal.
fn ids_refused(value: &[u8], request: bool, count: usize) -> bool
    requires value_len_bound { length value.now ≤ max_value }
    requires ids_counted { length (ids_in value.now) ≡ count }
    ensures { result ≡ (request && ids_refused (ids_in value.now)) }
{
    request && any_refused(value, count)
}

// The same of a request. On its own, so that a list that is no request has no room for IDs on its stack.
#[inline(never)]
fn any_refused(value: &[u8], count: usize) -> bool
    requires value_len_bound { length value.now ≤ max_value }
    requires ids_counted { length (ids_in value.now) ≡ count }
    ensures { result ≡ ids_refused (ids_in value.now) }
{
    // the usual case: a peer that counts up
    if ids_ascend(value, count) {
        return false;
    }
    if count <= MAX_ADDRESSES {
        return ids_refused_of::<MAX_ADDRESSES>(value, count);
    }
    ids_refused_of::<MAX_ENTRIES>(value, count)
}

// Whether none of so many IDs is zero and each is larger than the one before it: true says that they are not refused, false says nothing. They are compared as
// they are read, so that none is stored.
fn ids_ascend(value: &[u8], count: usize) -> bool
    requires value_len_bound { length value.now ≤ max_value }
    requires ids_counted { length (ids_in value.now) ≡ count }
    ensures { result ≡ true → ids_refused (ids_in value.now) ≡ false }
{
    let mut last: u64 = 0;
    let mut at: usize = 0;
    for n in 0..count {
        let r = read_id(&value[at..]);
        if r.id <= last {
            return false;
        }
        last = r.id;
        at += r.size;
    }
    true
}

// The IDs of at most N entries: for those of most requests no large array is cleared.
fn ids_refused_of<const N: usize>(value: &[u8], count: usize) -> bool
    requires value_len_bound { length value.now ≤ max_value }
    requires ids_counted { length (ids_in value.now) ≡ count }
    requires count_le { count ≤ N }
    requires room_le { N ≤ max_entries }
    ensures { result ≡ ids_refused (ids_in value.now) }
{
    let mut ids = [0u64; N];
    let mut spare = [0u64; N];
    judge_ids(value, count, &mut ids, &mut spare)
}

// The IDs of so many good entries are collected, up to one that is zero, and then compared all at once.
fn judge_ids(value: &[u8], count: usize, ids: &mut [u64], spare: &mut [u64]) -> bool
    requires value_len_bound { length value.now ≤ max_value }
    requires ids_counted { length (ids_in value.now) ≡ count }
    requires count_in_bounds { count ≤ length ids.old }
    requires spare_len { length spare.old ≡ length ids.old }
    ensures { result ≡ ids_refused (ids_in value.now) }
{
    let mut at: usize = 0;
    for n in 0..count {
        let r = read_id(&value[at..]);
        if r.id == 0 {
            return true;
        }
        ids[n] = r.id;
        at += r.size;
    }
    distinct::repeats(&mut ids[..count], &mut spare[..count])
}

// The ranges of an advertisement.
fn read_ranges(value: &[u8], words: &mut [u64; ROUTE_WORDS]) -> Result<(), Refusal>
    requires value_len_bound { length value.now ≤ max_value }
    requires words_blank { words.old ≡ replicate route_words 0 }
    ensures { ReadsRanges (elements_in range_format false max_ranges value.now) result words.new }
{
    let mut last = lists::before_all();
    let mut count: usize = 0;
    let mut at: usize = 0;
    // by hand as in `read_entries`
    while at < value.len() {
        let read = read_range(&value[at..]).ok_or(Refusal::BadRange)?;
        let range = read.range;
        if !lists::in_order(last, range) {
            return Err(Refusal::RangesOutOfOrder);
        }
        if count < MAX_RANGES {
            lists::put_range(words, count, range);
        }
        last = range;
        count += 1;
        // the size that was read would go through memory, and the next turn wait for it
        at += range_size(range.version);
    }
    if MAX_RANGES < count {
        return Err(Refusal::TooMany);
    }
    words[0] = count as u64;
    Ok(())
}

// How many bytes a range of this version takes.
fn range_size(version: u8) -> usize
    ensures { result ≡ pick (eqb version 4) 10 34 }
{
    if version == 4 { 10 } else { 34 }
}
