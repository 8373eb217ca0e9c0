// A call: the bytes of the stream that arrived.
ghost use Rattle.std.specs.Prelude.{◌≡◌, ◌+◌, ◌≤◌, ◌++◌, length, get_or, take, drop};
ghost use Rattle.output.specs.Places.{Put};
ghost use Rattle.capsule.specs.Capsules.{max_value};
ghost use Rattle.capsule.specs.Heads.{head_size, HeadRead};
ghost use Rattle.state.specs.State.{store_at, state_words};
ghost use Rattle.exchange.specs.Reading.{TakesCapsule};
ghost use Rattle.stream.specs.Store.{on_skip};
ghost use Rattle.stream.specs.Feeding.{kept_size, Feeds, fed};
ghost use Rattle.stream.specs.Inner.{Refuses, HandsOut, Settles, Moves, Keeps, Goes, keeps_all, is_empty, EndsBehind, stays_open, is_datagram, HandsDatagram, Live, Fresh, Collecting, EndsDatagram};

use crate::store::{KEPT_SIZE, SKIP_AT, STOPPED_AT, kept_head, remembered, store_sound};
use answer::Refusal;
use capsule::{CapsuleRead, HEAD_SIZE, Head, Kind, MAX_VALUE};
use lists::ADDRESS_WORDS;
use state::{STATE_WORDS, STORE_AT};

// What a call says: 0 with a capsule of a kind, and how many bytes of its value stand in the output; 0 between capsules; or 1, in a capsule.
#[derive(Clone, Copy)]
pub enum Call {
    Handed { kind: Kind, length: usize },
    Between,
    Wait,
}

// And how many of the bytes it took; a refused call takes none.
#[derive(Clone, Copy)]
pub struct Piece {
    pub call: Call,
    pub taken: usize,
}

// Reads on in the stream, up to the end of one capsule. A DATAGRAM is handed out by its value, at the front of the output, an ADDRESS_REQUEST by its
// entries, and the list of the other two becomes the received one.
pub fn feed(
    state: &mut [u64; STATE_WORDS],
    kept: &mut [u8; KEPT_SIZE],
    bytes: &[u8],
    out: &mut [u8],
    requested: &mut [u64; ADDRESS_WORDS],
) -> Result<Piece, Refusal>
    ensures { Feeds state.old kept.old bytes.now out.old requested.old result
        state.new kept.new out.new requested.new }
{
    if out.len() < MAX_VALUE {
        return Err(Refusal::NoRoom);
    }
    if !state::state_sound(state) {
        return Err(Refusal::BrokenState);
    }
    if is_empty(state) {
        return feed_first(state, kept, bytes, out, requested);
    }
    let head = kept_head(state, kept);
    if !store_sound(state, kept, head) {
        return Err(Refusal::BrokenState);
    }
    remembered(state[STOPPED_AT])?;
    let skip = state[SKIP_AT];
    if 0 < skip {
        return pass_over(state, skip, bytes.len());
    }
    // most pieces of a long capsule end here, before the head goes through memory to another function
    if stays_open(head, state[STORE_AT], bytes.len()) {
        return keep(state, kept, bytes);
    }
    // and so does the last one of a DATAGRAM
    if is_datagram(head) {
        return end_datagram(state, kept, head, bytes, out);
    }
    feed_open(state, kept, head, bytes, out, requested)
}

// Whether a capsule of this head, of which `count` bytes are kept, does not end in so many bytes more.
fn stays_open(head: Option<Head>, count: u64, given: usize) -> bool
    requires { EndsBehind head count }
    ensures { result ≡ stays_open head count given }
{
    match head {
        Some(head) => (given as u64) < (head.start as u64 + head.length) - count,
        None => false,
    }
}

// Whether the head is known, and that of a DATAGRAM.
fn is_datagram(head: Option<Head>) -> bool
    ensures { result ≡ is_datagram head }
{
    match head {
        Some(head) => head.kind == 0,
        None => false,
    }
}

// The last bytes of a DATAGRAM of this head, which is not cut: its value is handed out.
fn end_datagram(
    state: &mut [u64; STATE_WORDS],
    kept: &[u8],
    head: Option<Head>,
    bytes: &[u8],
    out: &mut [u8],
) -> Result<Piece, Refusal>
    requires { (EndsDatagram state.old kept.now bytes.now head) × (max_value ≤ length out.old) }
    ensures { HandsDatagram (fed state.old kept.now bytes.now) state.old kept.now
        out.old result state.new out.new }
{
    let count = state[STORE_AT] as usize;
    let head = head.unwrap();
    let need = head.start + head.length as usize - count;
    let size = hand_value(&kept[..count], &bytes[..need], head.start, out);
    hand_out(state, Kind::Datagram, size, need)
}

// Whether a store keeps nothing, skips nothing and remembers nothing.
fn is_empty(state: &[u64]) -> bool
    requires { state_words ≤ length state.now }
    ensures { result ≡ is_empty state.now }
{
    state[STORE_AT] == 0 && state[SKIP_AT] == 0 && state[STOPPED_AT] == 0
}

// An empty store: the bytes given start the capsule. A way of its own, so that no head is handed from function to function through memory; a whole
// DATAGRAM writes no word of the store, which are 0 already. A list goes the way of every other store.
fn feed_first(
    state: &mut [u64; STATE_WORDS],
    kept: &mut [u8],
    bytes: &[u8],
    out: &mut [u8],
    requested: &mut [u64; ADDRESS_WORDS],
) -> Result<Piece, Refusal>
    requires { (Fresh state.old) × (max_value ≤ length out.old) × (length kept.old ≡ kept_size) }
    ensures { Goes (fed state.old kept.old bytes.now) state.old kept.old
        out.old requested.old result state.new kept.new out.new requested.new }
{
    let Some(
        Head {
            kind,
            start,
            length,
        },
    ) = capsule::read_head(bytes)
    else {
        return keep(state, kept, bytes);
    };
    if 3 < kind {
        return pass_over(state, start as u64 + length, bytes.len());
    }
    if (MAX_VALUE as u64) < length {
        return remember(state, Refusal::TooLong);
    }
    let end = start + length as usize;
    if bytes.len() < end {
        return keep(state, kept, bytes);
    }
    if kind == 0 {
        let n = output::put_bytes(out, 0, &bytes[start..end]);
        return Ok(Piece {
            call: Call::Handed {
                kind: Kind::Datagram,
                length: n,
            },
            taken: end,
        });
    }
    feed_open(state, kept, None, bytes, out, requested)
}

// A store that skips nothing: type and length say how many of the bytes belong to the capsule, and its value is looked at once, when all of it is
// there.
fn feed_open(
    state: &mut [u64; STATE_WORDS],
    kept: &mut [u8],
    head: Option<Head>,
    bytes: &[u8],
    out: &mut [u8],
    requested: &mut [u64; ADDRESS_WORDS],
) -> Result<Piece, Refusal>
    requires { (Collecting state.old kept.old) × (max_value ≤ length out.old) × (HeadRead (take (get_or state.old store_at 0) kept.old) head) }
    ensures { Goes (fed state.old kept.old bytes.now) state.old kept.old
        out.old requested.old result state.new kept.new out.new requested.new }
{
    let count = state[STORE_AT] as usize;
    let Some(
        Head {
            kind,
            start,
            length,
        },
    ) = head_over(&kept[..count], head, bytes)
    else {
        return keep(state, kept, bytes);
    };
    if 3 < kind {
        let left = (start as u64 + length) - count as u64;
        return pass_over(state, left, bytes.len());
    }
    if (MAX_VALUE as u64) < length {
        return remember(state, Refusal::TooLong);
    }
    let end = start + length as usize;
    let need = end - count;
    if bytes.len() < need {
        return keep(state, kept, bytes);
    }
    if kind == 0 {
        let n = hand_value(&kept[..count], &bytes[..need], start, out);
        return hand_out(state, Kind::Datagram, n, need);
    }
    if count == 0 {
        let read = exchange::take_capsule(state, &bytes[..need], 0, requested);
        return settle(state, read, need);
    }
    let read = take_cut(state, &kept[..count], &bytes[..need], requested);
    settle(state, read, need)
}

// Type and length of the capsule that the kept bytes, of this head, and the given ones start.
fn head_over(kept: &[u8], head: Option<Head>, bytes: &[u8]) -> Option<Head>
    requires { HeadRead kept.now head }
    ensures { HeadRead (kept.now ++ bytes.now) result }
{
    if kept.len() == 0 {
        return capsule::read_head(bytes);
    }
    match head {
        Some(_) => head,
        None => head_across(kept, bytes),
    }
}

// The same of few kept bytes, which cut it.
fn head_across(kept: &[u8], bytes: &[u8]) -> Option<Head>
    requires { length kept.now ≤ head_size }
    ensures { HeadRead (kept.now ++ bytes.now) result }
{
    let more = bytes.len().min(HEAD_SIZE - kept.len());
    let mut front = [0u8; HEAD_SIZE];
    let n = gather(kept, &bytes[..more], &mut front);
    capsule::read_head(&front[..n])
}

// The kept bytes, and then the given ones, at the front of a memory: how many they are.
fn gather(kept: &[u8], bytes: &[u8], space: &mut [u8]) -> usize
    requires { length kept.now + length bytes.now ≤ length space.old }
    ensures { Put (kept.now ++ bytes.now) 0 space.old result space.new }
{
    let n = output::put_bytes(space, 0, kept);
    output::put_bytes(space, n, bytes)
}

// The bytes are appended to those kept.
fn keep(state: &mut [u64; STATE_WORDS], kept: &mut [u8], bytes: &[u8]) -> Result<Piece, Refusal>
    requires { (Live state.old) × (get_or state.old store_at 0 + length bytes.now ≤ length kept.old) }
    ensures { Keeps (keeps_all (take (get_or state.old store_at 0) kept.old) bytes.now) state.old
        kept.old result state.new kept.new }
{
    let count = state[STORE_AT] as usize;
    let n = output::put_bytes(kept, count, bytes);
    state[STORE_AT] = n as u64;
    if n == 0 {
        return Ok(Piece {
            call: Call::Between,
            taken: 0,
        });
    }
    Ok(Piece {
        call: Call::Wait,
        taken: bytes.len(),
    })
}

// A value that is skipped: so many bytes are still to come, and so many are given.
fn pass_over(state: &mut [u64; STATE_WORDS], left: u64, given: usize) -> Result<Piece, Refusal>
    requires { (length state.old ≡ state_words) × (get_or state.old (store_at + 2) 0 ≡ 0) }
    ensures { Moves (on_skip left given) state.old result state.new }
{
    if (given as u64) < left {
        state[STORE_AT] = 0;
        state[SKIP_AT] = left - given as u64;
        return Ok(Piece {
            call: Call::Wait,
            taken: given,
        });
    }
    hand_out(state, Kind::Other, 0, left as usize)
}

// The refusal is remembered.
fn remember(state: &mut [u64; STATE_WORDS], why: Refusal) -> Result<Piece, Refusal>
    ensures { Refuses why state.old result state.new }
{
    state[STOPPED_AT] = why.number() as u64;
    Err(why)
}

// A capsule came to its end: the store is empty.
fn hand_out(
    state: &mut [u64; STATE_WORDS],
    kind: Kind,
    length: usize,
    taken: usize,
) -> Result<Piece, Refusal>
    ensures { HandsOut kind length taken state.old result state.new }
{
    state[STORE_AT] = 0;
    state[SKIP_AT] = 0;
    Ok(Piece {
        call: Call::Handed { kind, length },
        taken,
    })
}

// The value of a DATAGRAM that starts at a place of the kept bytes and those given, up to their end: how many bytes it is.
fn hand_value(kept: &[u8], bytes: &[u8], start: usize, out: &mut [u8]) -> usize
    requires { (start ≤ length kept.now + length bytes.now) × (length kept.now + length bytes.now ≤ start + length out.old) }
    ensures { Put (drop start (kept.now ++ bytes.now)) 0 out.old result out.new }
{
    if kept.len() <= start {
        let from = start - kept.len();
        return output::put_bytes(out, 0, &bytes[from..]);
    }
    gather(&kept[start..], bytes, out)
}

// A list that was cut is read from a copy, so that a refusal leaves the kept bytes as they were. It stands apart, so that a DATAGRAM, or a list given
// whole, does not touch the stack of the copy.
#[inline(never)]
fn take_cut(
    state: &mut [u64; STATE_WORDS],
    kept: &[u8],
    bytes: &[u8],
    requested: &mut [u64; ADDRESS_WORDS],
) -> Result<CapsuleRead, Refusal>
    requires { length kept.now + length bytes.now ≤ kept_size }
    ensures { TakesCapsule state.old (kept.now ++ bytes.now) 0 requested.old result state.new
        requested.new }
{
    let mut space = [0u8; KEPT_SIZE];
    let n = gather(kept, bytes, &mut space);
    exchange::take_capsule(state, &space[..n], 0, requested)
}

// What a list that was read leaves of the store.
fn settle(
    state: &mut [u64; STATE_WORDS],
    read: Result<CapsuleRead, Refusal>,
    taken: usize,
) -> Result<Piece, Refusal>
    ensures { Settles read taken state.old result state.new }
{
    match read {
        Ok(read) => hand_out(state, read.kind, 0, taken),
        Err(why) => remember(state, why),
    }
}
