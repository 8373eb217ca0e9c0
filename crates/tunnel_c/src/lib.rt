// The box for C and Rust hosts: functions over numbers, byte slices and arrays of words. The host owns the state, one array of words, and lends it;
// `tunnel_c_c` exports the functions, and `include/whapirohi.h` has the declarations and what a caller owes. Each function promises what the function of the same
// name below promises, with the answer as the number that it gives back and its values beside it.
#![tactic(auto)]

mod capsules; // capsules.rt: capsules read and written against the lent state
mod packets; // packets.rt: packets sent and received
mod pieces; // pieces.rt: the stream in pieces
mod plans; // plans.rt: the plan loaded and written

ghost use Rattle.std.specs.Prelude.{◌≡◌, replicate};
ghost use Rattle.state.specs.State.{state_words};
ghost use Rattle.varint.specs.Numbers.{read_number};
ghost use Rattle.tunnel_c.specs.Plain.{plain_answer, plain_number, NumberPlainly, state_bytes};

use answer::Refusal;
pub use capsules::{
    PlainCapsule, whapirohi_read_capsule, whapirohi_write_assign, whapirohi_write_datagram,
    whapirohi_write_request, whapirohi_write_routes,
};
pub use packets::{whapirohi_receive, whapirohi_send};
pub use pieces::{PlainPiece, whapirohi_feed, whapirohi_kept_size};
pub use plans::{whapirohi_load_plan, whapirohi_write_plan};
use state::STATE_WORDS;
use varint::Number;

// The bytes of a word.
const WORD_BYTES: usize = 8;

// An answer: its number, and how many bytes were written.
#[repr(C)]
#[derive(Clone, Copy)]
pub struct PlainAnswer {
    pub number: u64,
    pub length: u64,
}

// A number that was read: its value and how many bytes it took, both 0 with a refusal.
#[repr(C)]
#[derive(Clone, Copy)]
pub struct PlainNumber {
    pub number: u64,
    pub value: u64,
    pub size: u64,
}

// How many bytes the state takes.
pub fn whapirohi_state_size() -> u64
    ensures { result ≡ state_bytes }
{
    (WORD_BYTES * STATE_WORDS) as u64
}

// The state at the start: no grants, no templates.
pub fn whapirohi_start(state: &mut [u64; STATE_WORDS])
    ensures { state.new ≡ replicate state_words 0 }
{
    *state = [0u64; STATE_WORDS];
}

// A number read by itself.
pub fn whapirohi_read_number(bytes: &[u8]) -> PlainNumber
    ensures { result ≡ plain_number (read_number bytes.now) }
{
    let read = varint::read(bytes);
    match read {
        Some(Number { value, size }) => PlainNumber {
            number: 0,
            value,
            size: size as u64,
        },
        None => PlainNumber {
            number: 1,
            value: 0,
            size: 0,
        },
    }
}

// A number written by itself.
pub fn whapirohi_write_number(value: u64, out: &mut [u8]) -> PlainAnswer
    ensures { NumberPlainly value out.old result out.new }
{
    let answer = varint::write(value, out);
    plain(answer)
}

// An answer in plain numbers.
fn plain(answer: Result<usize, Refusal>) -> PlainAnswer
    ensures { result ≡ plain_answer answer }
{
    let number = answer::number_of(&answer) as u64;
    let length = answer::length_of(answer) as u64;
    PlainAnswer { number, length }
}
