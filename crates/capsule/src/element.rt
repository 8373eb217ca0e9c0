// One element at the front of some bytes: an address entry or a route range, or that there is none.
ghost use Rattle.std.specs.Prelude.{◌≡◌, ◌+◌, ◌<◌, ◌^◌, length};
ghost use Rattle.capsule.specs.Entries.{read_body, read_entry, read_range};
ghost use Rattle.capsule.specs.RequestIds.{GoodFront, ReadsId};

use lists::{AddressEntry, RequestId, RouteRange};

// An entry and how many bytes it took.
#[derive(Clone, Copy)]
pub struct EntryRead {
    pub entry: AddressEntry,
    pub size: usize,
}

// A range likewise.
#[derive(Clone, Copy)]
pub struct RangeRead {
    pub range: RouteRange,
    pub size: usize,
}

// The address entry at the front of s: Request ID, version, address, prefix length. None is one that is cut or breaks its rule.
pub(crate) fn read_entry(s: &[u8]) -> Option<EntryRead>
    ensures { result ≡ read_entry s.now }
{
    let id = varint::read(s)?;
    read_body(id.value, id.size, &s[id.size..])
}

// What follows a Request ID of n bytes.
fn read_body(id: u64, n: usize, t: &[u8]) -> Option<EntryRead>
    requires { n + length t.now < 2 ^ 64 }
    ensures { result ≡ read_body id n t.now }
{
    if t.len() < 6 {
        return None;
    }
    let request_id = RequestId(id);
    let version = t[0];
    if version == 4 {
        let prefix = t[5];
        let lo = octets::big_at(t, 1, 4);
        let entry = AddressEntry {
            request_id,
            version: 4,
            prefix,
            hi: 0,
            lo,
        };
        if lists::entry_sound(entry) {
            return Some(EntryRead { entry, size: n + 6 });
        }
        return None;
    }
    if version != 6 || t.len() < 18 {
        return None;
    }
    let prefix = t[17];
    let hi = octets::big_at(t, 1, 8);
    let lo = octets::big_at(t, 9, 8);
    let entry = AddressEntry {
        request_id,
        version: 6,
        prefix,
        hi,
        lo,
    };
    if lists::entry_sound(entry) {
        return Some(EntryRead {
            entry,
            size: n + 18,
        });
    }
    None
}

// The Request ID of an entry that is good, and how many bytes the entry takes.
#[derive(Clone, Copy)]
pub(crate) struct IdRead {
    pub(crate) id: u64,
    pub(crate) size: usize,
}

// Of the one at the front of s. Nothing else of it is looked at.
pub(crate) fn read_id(s: &[u8]) -> IdRead
    requires { GoodFront s.now }
    ensures { ReadsId s.now result }
{
    let id = varint::read(s).unwrap();
    let body = if s[id.size] == 4 { 6 } else { 18 };
    IdRead {
        id: id.value,
        size: id.size + body,
    }
}

// The route range at the front of s: version, start, end, protocol.
pub(crate) fn read_range(s: &[u8]) -> Option<RangeRead>
    ensures { result ≡ read_range s.now }
{
    if s.len() < 10 {
        return None;
    }
    let version = s[0];
    if version == 4 {
        let start_lo = octets::big_at(s, 1, 4);
        let end_lo = octets::big_at(s, 5, 4);
        let protocol = s[9];
        let range = RouteRange {
            version: 4,
            protocol,
            start_hi: 0,
            start_lo,
            end_hi: 0,
            end_lo,
        };
        if lists::range_sound(range) {
            return Some(RangeRead { range, size: 10 });
        }
        return None;
    }
    if version != 6 || s.len() < 34 {
        return None;
    }
    let start_hi = octets::big_at(s, 1, 8);
    let start_lo = octets::big_at(s, 9, 8);
    let end_hi = octets::big_at(s, 17, 8);
    let end_lo = octets::big_at(s, 25, 8);
    let protocol = s[33];
    let range = RouteRange {
        version: 6,
        protocol,
        start_hi,
        start_lo,
        end_hi,
        end_lo,
    };
    if lists::range_sound(range) {
        return Some(RangeRead { range, size: 34 });
    }
    None
}
