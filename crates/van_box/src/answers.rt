// What each kind of record answers: one library function each, which writes the answer's bytes behind the place of its head.
// All answers of a record go to the output that is lent, and nothing is read or written here. Each is a call and its head, and no closure takes their place: it
// would hold the state of which the contract speaks.
ghost use Rattle.std.specs.Prelude.{◌≡◌, ◌+◌, ◌≤◌, length};
ghost use Rattle.state.specs.State.{state_words};
ghost use Rattle.stream.specs.Feeding.{call_by, taken_by};
ghost use Rattle.van_box.specs.Sizes.{max_record, answer_room, record_room};
ghost use Rattle.van_box.specs.Outgoing.{Appends};
ghost use Rattle.van_box.specs.Records.{sent_answer, received_answer, request_answer, plan_outcome, assign_outcome, advertise_outcome};
ghost use Rattle.van_box.specs.Records.{memory, call_answer, is_handed, stream_outcome, outcome, Answers, AnswersPiece};

use crate::outgoing::{ANSWER_HEAD, Output, put_answer, put_unknown};
use answer::Refusal;
use state::STATE_WORDS;
use stream::{Call, KEPT_SIZE, Piece};

// The output after a call, how many of the bytes it took, and whether it handed a capsule out.
#[derive(Clone, Copy)]
pub struct Stepped {
    pub output: Output,
    pub taken: usize,
    pub handed: bool,
}

// The answers to a record.
#[tactic(auto, using(crate::proofs::Outcomes::record_cases))]
pub(crate) fn answer_record(
    state: &mut [u64; STATE_WORDS],
    kept: &mut [u8; KEPT_SIZE],
    kind: u8,
    body: &[u8],
    out: &mut [u8],
    output: Output,
) -> Output
    requires state_len { length state.old ≡ state_words }
    requires record_room_in_bounds { output.used + record_room ≤ length out.old }
    requires body_len_bound { length body.now ≤ max_record }
    ensures { Answers (outcome kind (memory state.old kept.old) body.now) output out.old result
        (memory state.new kept.new) out.new }
{
    match kind {
        b'C' => stream_record(state, kept, body, out, output),
        b'P' => plan_record(state, body, out, output),
        b'A' => assign_record(state, body, out, output),
        b'R' => advertise_record(state, body, out, output),
        b'Q' => request_record(body, out, output),
        b'T' => packet_record(state, body, out, output),
        b'D' => datagram_record(state, body, out, output),
        _ => put_unknown(output, out),
    }
}

// A packet from a tablet.
fn packet_record<'a>(
    state: &'a [u64; STATE_WORDS],
    packet: &'a [u8],
    out: &mut [u8],
    output: Output,
) -> Output
    requires { output.used + answer_room ≤ length out.old }
    ensures { Appends (sent_answer state.now packet.now) output out.old result out.new }
{
    let start = output.used + ANSWER_HEAD;
    let sent = tunnel::send(state, packet, &mut out[start..]);
    put_answer(output, out, b'T', sent)
}

// A datagram from the link.
fn datagram_record<'a>(
    state: &'a [u64; STATE_WORDS],
    datagram: &'a [u8],
    out: &mut [u8],
    output: Output,
) -> Output
    requires { output.used + answer_room ≤ length out.old }
    ensures { Appends (received_answer state.now datagram.now) output out.old result out.new }
{
    let start = output.used + ANSWER_HEAD;
    let received = tunnel::receive(state, datagram, &mut out[start..]);
    put_answer(output, out, b'D', received)
}

// A plan file: a good one replaces the templates.
fn plan_record(
    state: &mut [u64; STATE_WORDS],
    file: &[u8],
    out: &mut [u8],
    output: Output,
) -> Output
    requires { output.used + answer_room ≤ length out.old }
    ensures { Answers (plan_outcome state.old file.now) output out.old result state.new out.new }
{
    let verdict = state::load_plan(state, file);
    match verdict {
        Ok(()) => put_answer(output, out, b'P', Ok(0)),
        Err(why) => put_answer(output, out, b'P', Err(why)),
    }
}

// Entries to assign.
fn assign_record(
    state: &mut [u64; STATE_WORDS],
    value: &[u8],
    out: &mut [u8],
    output: Output,
) -> Output
    requires { output.used + answer_room ≤ length out.old }
    ensures { Answers (assign_outcome state.old value.now) output out.old result state.new out.new }
{
    let start = output.used + ANSWER_HEAD;
    let assigned = exchange::assign(state, value, &mut out[start..]);
    put_answer(output, out, b'A', assigned)
}

// Ranges to advertise.
fn advertise_record(
    state: &mut [u64; STATE_WORDS],
    value: &[u8],
    out: &mut [u8],
    output: Output,
) -> Output
    requires { output.used + answer_room ≤ length out.old }
    ensures { Answers (advertise_outcome state.old value.now) output out.old result state.new out.new }
{
    let start = output.used + ANSWER_HEAD;
    let advertised = exchange::advertise(state, value, &mut out[start..]);
    put_answer(output, out, b'R', advertised)
}

// Entries to request.
fn request_record(value: &[u8], out: &mut [u8], output: Output) -> Output
    requires { output.used + answer_room ≤ length out.old }
    ensures { Appends (request_answer value.now) output out.old result out.new }
{
    let start = output.used + ANSWER_HEAD;
    let requested = exchange::request(value, &mut out[start..]);
    put_answer(output, out, b'Q', requested)
}

// Bytes of the stream: every capsule that comes to its end gets an answer, and any other answer is the last one.
fn stream_record(
    state: &mut [u64; STATE_WORDS],
    kept: &mut [u8; KEPT_SIZE],
    bytes: &[u8],
    out: &mut [u8],
    output: Output,
) -> Output
    requires state_len { length state.old ≡ state_words }
    requires record_room_in_bounds { output.used + record_room ≤ length out.old }
    requires bytes_len_bound { length bytes.now ≤ max_record }
    ensures { Answers (stream_outcome (memory state.old kept.old) bytes.now) output out.old result
        (memory state.new kept.new) out.new }
{
    let mut waiting = output;
    let mut at: usize = 0;
    // no `for`: each call says how many bytes it took
    loop {
        let step = piece_record(state, kept, &bytes[at..], out, waiting);
        waiting = step.output;
        if !step.handed {
            return waiting;
        }
        let next = at + step.taken;
        if bytes.len() <= next {
            return waiting;
        }
        at = next;
    }
}

// The bytes up to the end of a capsule.
fn piece_record(
    state: &mut [u64; STATE_WORDS],
    kept: &mut [u8; KEPT_SIZE],
    bytes: &[u8],
    out: &mut [u8],
    output: Output,
) -> Stepped
    requires { output.used + answer_room ≤ length out.old }
    ensures { AnswersPiece (memory state.old kept.old) bytes.now output out.old result
        (memory state.new kept.new) out.new }
{
    let start = output.used + ANSWER_HEAD;
    let read = stream::next_capsule(state, kept, bytes, &mut out[start..]);
    let answer = call_answer(read);
    let answered = put_answer(output, out, b'C', answer);
    Stepped {
        output: answered,
        taken: taken_by(read),
        handed: is_handed(read),
    }
}

// The answer to what a call says: 1 while a capsule is open.
fn call_answer(read: Result<Piece, Refusal>) -> Result<usize, Refusal>
    ensures { result ≡ call_answer (call_by read) }
{
    match read?.call {
        Call::Handed { kind: _, length } => Ok(length),
        Call::Between => Ok(0),
        Call::Wait => Err(Refusal::Incomplete),
    }
}

// How many bytes a call took; a refusal takes none.
fn taken_by(read: Result<Piece, Refusal>) -> usize
    ensures { result ≡ taken_by read }
{
    match read {
        Ok(piece) => piece.taken,
        Err(_) => 0,
    }
}

// Whether a call handed a capsule out.
fn is_handed(read: Result<Piece, Refusal>) -> bool
    ensures { result ≡ is_handed (call_by read) }
{
    matches!(
        read,
        Ok(Piece {
            call: Call::Handed { .. },
            ..
        })
    )
}
