// The stream in pieces: an unfinished capsule is kept in the lent state and in lent bytes beside it.
ghost use Rattle.std.specs.Prelude.{◌≡◌};
ghost use Rattle.stream.specs.Feeding.{kept_size};
ghost use Rattle.tunnel_c.specs.Plain.{not_handed, plain_call, plain_piece, FeedsPlainly};

use answer::Refusal;
use lists::ADDRESS_WORDS;
use state::STATE_WORDS;
use stream::{Call, KEPT_SIZE, Piece};

// What a call answers: with number 0 a capsule of a kind was handed out, or, where handed is 0, there was nothing to read; 1 is wait. The length is that
// of a DATAGRAM's value, and taken says how many of the bytes were taken.
#[repr(C)]
#[derive(Clone, Copy)]
pub struct PlainPiece {
    pub number: u64,
    pub handed: u64,
    pub kind: u64,
    pub length: u64,
    pub taken: u64,
}

// How many bytes the memory for an unfinished capsule takes.
pub fn whapirohi_kept_size() -> u64
    ensures { result ≡ kept_size }
{
    KEPT_SIZE as u64
}

// Bytes of the stream, up to the end of one capsule. The value of a DATAGRAM goes to the front of out, requested entries to the host's memory for them, and
// a good list replaces the received one.
pub fn whapirohi_feed(
    state: &mut [u64; STATE_WORDS],
    kept: &mut [u8; KEPT_SIZE],
    bytes: &[u8],
    out: &mut [u8],
    requested: &mut [u64; ADDRESS_WORDS],
) -> PlainPiece
    ensures { FeedsPlainly state.old kept.old bytes.now out.old requested.old result
        state.new kept.new out.new requested.new }
{
    let piece = stream::feed(state, kept, bytes, out, requested);
    plain_piece(piece)
}

// A piece in plain numbers; a refusal takes nothing.
fn plain_piece(piece: Result<Piece, Refusal>) -> PlainPiece
    ensures { result ≡ plain_piece piece }
{
    match piece {
        Ok(Piece { call, taken }) => plain_call(taken as u64, call),
        Err(why) => not_handed(why.number() as u64, 0),
    }
}

// What a call says, and how many bytes it took.
fn plain_call(taken: u64, call: Call) -> PlainPiece
    ensures { result ≡ plain_call taken call }
{
    match call {
        Call::Handed { kind, length } => PlainPiece {
            number: 0,
            handed: 1,
            kind: kind.number(),
            length: length as u64,
            taken,
        },
        Call::Between => not_handed(0, taken),
        Call::Wait => not_handed(1, taken),
    }
}

// No capsule was handed out.
fn not_handed(number: u64, taken: u64) -> PlainPiece
    ensures { result ≡ not_handed number taken }
{
    PlainPiece {
        number,
        handed: 0,
        kind: 0,
        length: 0,
        taken,
    }
}
