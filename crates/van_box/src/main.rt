// The box as a filter: records on standard input, their answers on standard output (README, "The box as a filter").
// The program only moves bytes: what a record answers comes from `exchange`, `state`, `stream` and `tunnel`. The state and the bytes of an unfinished
// capsule live across records in memory that is lent.
// Answers are gathered and written before each read, so that none waits for more input. It ends where the input does, or where the output
// cannot be written.
#![tactic(auto)]

mod answers;
mod incoming;
mod outgoing;
mod says;

ghost use Rattle.std.specs.Prelude.{◌≤◌, length};
ghost use Rattle.van_box.specs.Sizes.{input_room, answer_head, record_room};
ghost use Rattle.van_box.specs.Records.{memory};
ghost use Rattle.van_box.specs.Passing.{Sound, AnswersAll, Turns};

use answers::answer_record;
use incoming::{RECORD_HEAD, fill, keep, record_size};
use outgoing::{Output, RECORD_ROOM, flush, put_unknown, with_room};
use state::STATE_WORDS;
use std::env::{Env, FillError};
use std::io;
use std::io::Read;
use stream::KEPT_SIZE;

// Two records of the most bytes fit, so that what is held of one never fills the input.
const INPUT: usize = 131072;

// The answers that are gathered before they are written.
const GATHERED: usize = 65536;

const OUTPUT: usize = GATHERED + RECORD_ROOM;

// The box between two reads: how many bytes of an unfinished record the input holds, and whether there is more to do. A flag beside the number and no Option:
// `Turns` speaks of what is held at the end too.
#[derive(Clone, Copy)]
pub struct Between {
    pub held: usize,
    pub open: bool,
}

// The box after the records of some bytes: its output, and the place behind the last whole record.
#[derive(Clone, Copy)]
pub struct Answered {
    pub output: Output,
    pub at: usize,
}

fn main(rt: HostRuntime) -> io::Result<()> {
    if has_arg(&rt, 1) {
        return says::explain(&rt);
    }
    run(&mut rt.stdin(), &rt);
    Ok(())
}

// Whether the program was given so many arguments; the name that it was called by does not count.
pub(crate) fn has_arg(rt: &impl Env, i: usize) -> bool {
    !matches!(rt.arg(i, &mut []), Err(FillError::NotPresent))
}

fn run(from: &mut impl Read, to: &impl Print) {
    let mut input = [0u8; INPUT];
    let mut out = [0u8; OUTPUT];
    // All 0: no grants, no templates, no capsule open.
    let mut state = [0u64; STATE_WORDS];
    let mut kept = [0u8; KEPT_SIZE];
    let mut now = Between {
        held: 0,
        open: true,
    };
    // No run uses the turns up.
    for _ in 0..u64::MAX {
        if !now.open {
            break;
        }
        now = turn(from, to, now, &mut state, &mut kept, &mut input, &mut out);
    }
}

// One read and its answers.
fn turn(
    from: &mut impl Read,
    to: &impl Print,
    before: Between,
    state: &mut [u64; STATE_WORDS],
    kept: &mut [u8; KEPT_SIZE],
    input: &mut [u8; INPUT],
    out: &mut [u8; OUTPUT],
) -> Between
    requires within { before.held ≤ input_room }
    requires sound { Sound (memory state.old kept.old) }
    ensures within { result.held ≤ input_room }
    ensures sound { Sound (memory state.new kept.new) }
{
    answer_read(from, to, before, state, kept, input, out)
}

fn answer_read(
    from: &mut impl Read,
    to: &impl Print,
    before: Between,
    state: &mut [u64; STATE_WORDS],
    kept: &mut [u8; KEPT_SIZE],
    input: &mut [u8],
    out: &mut [u8],
) -> Between
    requires held_in_bounds { before.held ≤ length input.old }
    requires record_room_in_bounds { record_room ≤ length out.old }
    requires sound { Sound (memory state.old kept.old) }
    ensures { Turns (memory state.old kept.old) before input.old result
        (memory state.new kept.new) input.new }
{
    let held = before.held;
    let end = fill(from, input, held);
    if end <= held {
        end_of_input(to, held, out);
        return Between {
            held: 0,
            open: false,
        };
    }
    let after = answer_records(to, state, kept, &input[..end], out);
    let output = flush(to, after.output, out);
    let at = after.at;
    let left = keep(input, at, end);
    Between {
        held: left,
        open: output.open,
    }
}

// A record that is cut by the end of the input gets an answer too.
fn end_of_input(to: &impl Print, held: usize, out: &mut [u8])
    requires { answer_head ≤ length out.old }
{
    if 0 < held {
        let none = Output {
            used: 0,
            open: true,
        };
        let output = put_unknown(none, out);
        flush(to, output, out);
    }
}

// Answers every whole record of some bytes.
fn answer_records(
    to: &impl Print,
    state: &mut [u64; STATE_WORDS],
    kept: &mut [u8; KEPT_SIZE],
    bytes: &[u8],
    out: &mut [u8],
) -> Answered
    requires record_room_in_bounds { record_room ≤ length out.old }
    requires sound { Sound (memory state.old kept.old) }
    ensures { AnswersAll (memory state.old kept.old) bytes.now result
        (memory state.new kept.new) out.new }
{
    let mut output = Output {
        used: 0,
        open: true,
    };
    let mut at: usize = 0;
    // no `for`: each record says where the next one starts
    while output.open {
        let n = record_size(bytes, at);
        if n < RECORD_HEAD {
            break;
        }
        let kind = bytes[at];
        let start = at + RECORD_HEAD;
        let end = at + n;
        let room = with_room(to, output, out);
        output = answer_record(state, kept, kind, &bytes[start..end], out, room);
        at = end;
    }
    Answered { output, at }
}
