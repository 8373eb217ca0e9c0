// The store: how many of the lent bytes are kept, how many bytes of a skipped value are still to come, and the number of the refusal that is
// remembered, in three words of the state.
ghost use Rattle.std.specs.Prelude.{◌≡◌, ◌≤◌, length};
ghost use Rattle.capsule.specs.Heads.{HeadRead};
ghost use Rattle.state.specs.State.{state_words};
ghost use Rattle.stream.specs.Feeding.{kept_size, remembered_by};
ghost use Rattle.stream.specs.Inner.{is_open, KeptHead, Judged};

use answer::Refusal;
use capsule::{HEAD_SIZE, Head, MAX_VALUE};
use state::STORE_AT;

// The bytes of the lent memory for a capsule that is kept.
pub const KEPT_SIZE: usize = MAX_VALUE + HEAD_SIZE;

// The first number that no stream holds.
const NUMBER_LIMIT: u64 = 1 << 62;

pub(crate) const SKIP_AT: usize = STORE_AT + 1;

pub(crate) const STOPPED_AT: usize = STORE_AT + 2;

// Type and length of the kept bytes, as far as they are there; a count that no store has is left to the judge.
pub(crate) fn kept_head(state: &[u64], kept: &[u8]) -> Option<Head>
    requires { (state_words ≤ length state.now) × (length kept.now ≡ kept_size) }
    ensures { KeptHead state.now kept.now result }
{
    let count = state[STORE_AT];
    if KEPT_SIZE as u64 <= count {
        return None;
    }
    let n = count as usize;
    capsule::read_head(&kept[..n])
}

// Whether the store keeps its rules.
pub(crate) fn store_sound(state: &[u64], kept: &[u8], head: Option<Head>) -> bool
    requires { (state_words ≤ length state.now) × (length kept.now ≡ kept_size) × (KeptHead state.now kept.now head) }
    ensures { Judged state.now kept.now result }
{
    let count = state[STORE_AT];
    let skip = state[SKIP_AT];
    let number = state[STOPPED_AT];
    if number == 1 || 7 < number {
        return false;
    }
    if 0 < skip {
        return skip < NUMBER_LIMIT && count == 0;
    }
    if KEPT_SIZE as u64 <= count {
        return false;
    }
    let n = count as usize;
    is_open(&kept[..n], head)
}

// Whether bytes of this head are the front of an open capsule that is not skipped.
fn is_open(s: &[u8], head: Option<Head>) -> bool
    requires { HeadRead s.now head }
    ensures { result ≡ is_open s.now }
{
    let Some(
        Head {
            kind,
            start,
            length,
        },
    ) = head
    else {
        return true;
    };
    if 3 < kind {
        return false;
    }
    if (MAX_VALUE as u64) < length {
        return false;
    }
    s.len() < start + length as usize
}

// The refusal of a number that is remembered.
pub(crate) fn remembered(number: u64) -> Result<(), Refusal>
    ensures { result ≡ remembered_by number }
{
    match number {
        0 => Ok(()),
        2 => Err(Refusal::TooLong),
        3 => Err(Refusal::BadAddress),
        4 => Err(Refusal::BadRange),
        5 => Err(Refusal::RangesOutOfOrder),
        6 => Err(Refusal::BadRequestId),
        7 => Err(Refusal::TooMany),
        _ => Err(Refusal::Incomplete),
    }
}
