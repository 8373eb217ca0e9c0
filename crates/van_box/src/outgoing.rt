// Answers on standard output: the kind, one byte number, two bytes big-endian length, and that many bytes.
ghost use Rattle.std.specs.Prelude.{◌+◌, ◌≤◌, length};
ghost use Rattle.answer.specs.Number.{answer_length};
ghost use Rattle.van_box.specs.Sizes.{answer_head, record_room};
ghost use Rattle.van_box.specs.Outgoing.{unknown_answer, Appends, PutsHead, Flushes, MakesRoom};

use crate::incoming::MAX_RECORD;
use answer::Refusal;
use capsule_write::CAPSULE_ROOM;

// The bytes of an answer in front of its body.
pub(crate) const ANSWER_HEAD: usize = 4;

// The most that an answer takes: no function writes more than a capsule.
const ANSWER_ROOM: usize = ANSWER_HEAD + CAPSULE_ROOM;

// The most that the answers of a record take for each of its bytes: an entry of at most 26 bytes is read from at least 7, and a byte of a capsule's
// head makes up for the head of its answer.
const ANSWERS_SHARE: usize = 4;

// The room in which a record is answered: its answers, of which the first may be to a capsule that began in an earlier record, and the longest one, which
// is tried behind them.
pub(crate) const RECORD_ROOM: usize = ANSWERS_SHARE * MAX_RECORD + 2 * ANSWER_ROOM;

// How many bytes of answers wait at the front of the output, and whether it can be written. A flag beside the number and no Option: what puts an answer keeps the
// flag as it is, and so does not look at it.
#[derive(Clone, Copy)]
pub struct Output {
    pub used: usize,
    pub open: bool,
}

// Writes what waits.
pub(crate) fn flush(to: &impl Print, output: Output, out: &mut [u8]) -> Output
    requires { output.used ≤ length out.old }
    ensures { Flushes output out.old result out.new }
{
    let used = output.used;
    if !output.open {
        return Output {
            used: 0,
            open: false,
        };
    }
    let open = to.write_all(&out[..used]).is_ok();
    Output { used: 0, open }
}

// Room for the answers of a record behind what waits.
pub(crate) fn with_room(to: &impl Print, output: Output, out: &mut [u8]) -> Output
    requires used_in_bounds { output.used ≤ length out.old }
    requires record_room_in_bounds { record_room ≤ length out.old }
    ensures { MakesRoom output out.old result out.new }
{
    let left = out.len() - output.used;
    if left < RECORD_ROOM {
        return flush(to, output, out);
    }
    output
}

// The head of an answer in front of its bytes, which stand in the output already.
pub(crate) fn put_answer(
    output: Output,
    out: &mut [u8],
    kind: u8,
    answer: Result<usize, Refusal>,
) -> Output
    requires { output.used + answer_head + answer_length answer ≤ length out.old }
    ensures { PutsHead kind answer output out.old result out.new }
{
    let at = output.used;
    let size = answer::length_of(answer);
    out[at] = kind;
    out[at + 1] = answer::number_of(&answer);
    out[at + 2] = (size / 256 % 256) as u8;
    out[at + 3] = (size % 256) as u8;
    let used = at + ANSWER_HEAD + size;
    Output {
        used,
        open: output.open,
    }
}

// The answer to a record of no kind, and to one that is not all there.
pub(crate) fn put_unknown(output: Output, out: &mut [u8]) -> Output
    requires { output.used + answer_head ≤ length out.old }
    ensures { Appends unknown_answer output out.old result out.new }
{
    put_answer(output, out, b'?', Err(Refusal::Incomplete))
}
