// A capsule of the stream, with what it hands back at the front of an output.
ghost use Rattle.stream.specs.Handing.{HandsOn};

use crate::feeding::{Call, Piece, feed};
use crate::store::KEPT_SIZE;
use answer::Refusal;
use capsule::Kind;
use capsule_write::CAPSULE_ROOM;
use lists::ADDRESS_WORDS;
use state::STATE_WORDS;

// As `feed`, and the output holds the entries of an ADDRESS_REQUEST too, all numbers in their shortest form.
pub fn next_capsule(
    state: &mut [u64; STATE_WORDS],
    kept: &mut [u8; KEPT_SIZE],
    bytes: &[u8],
    out: &mut [u8],
) -> Result<Piece, Refusal>
    ensures { HandsOn state.old kept.old bytes.now out.old result state.new
        kept.new out.new }
{
    if out.len() < CAPSULE_ROOM {
        return Err(Refusal::NoRoom);
    }
    let mut requested = [0u64; ADDRESS_WORDS];
    let read = feed(state, kept, bytes, out, &mut requested)?;
    let call = read.call;
    match call {
        Call::Handed { kind, length } => {
            let is_request = kind == Kind::AddressRequest;
            if is_request {
                let answer = capsule_write::put_request_value(&requested, out);
                let n = answer::length_of(answer);
                return Ok(Piece {
                    call: Call::Handed { kind, length: n },
                    taken: read.taken,
                });
            }
            Ok(read)
        }
        Call::Between | Call::Wait => Ok(read),
    }
}
