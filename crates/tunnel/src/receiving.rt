// From a datagram to a packet.
ghost use Rattle.std.specs.Prelude.{◌≡◌, ◌++◌, ◌≤◌, length};
ghost use Rattle.answer.specs.Verdict.{first_of};
ghost use Rattle.table.specs.Words.{template_of};
ghost use Rattle.state.specs.State.{state_in};
ghost use Rattle.template.specs.Fits.{listed};
ghost use Rattle.template.specs.Datagrams.{packet, within_limit, open_short};
ghost use Rattle.tunnel.specs.Opening.{opened_in, short_in, opens, Receivable, Openable, Takable, Joinable, Takes};
ghost use Rattle.tunnel.specs.Tunnel.{receive_tests, Receives};

use super::RECEIVE_ROOM;
use super::judging::judge;
use answer::Refusal;
use output::put_bytes;
use state::{STATE_WORDS, STORE_AT, TABLE_AT, state_sound};
use table::{ContextId, STATIC_LIMIT, Template, template_at};
use template::MAX_PACKET;

// Writes the packet that a datagram stands for to the front of out.
pub fn receive(
    state: &[u64; STATE_WORDS],
    datagram: &[u8],
    out: &mut [u8],
) -> Result<usize, Refusal>
    ensures { Receives state.now datagram.now out.old result out.new }
{
    state_verdict(state, out.len())?;
    take_datagram(state, datagram, out)
}

// The first reason to look no further at a datagram, or `Ok`.
fn state_verdict(state: &[u64; STATE_WORDS], room: usize) -> Result<(), Refusal>
    ensures { result ≡ first_of (receive_tests (state_in state.now) room) }
{
    if room < RECEIVE_ROOM {
        return Err(Refusal::NoRoom);
    }
    if !state_sound(state) {
        return Err(Refusal::BrokenState);
    }
    Ok(())
}

// By the Context ID: 0 is the full form.
fn take_datagram(
    state: &[u64; STATE_WORDS],
    datagram: &[u8],
    out: &mut [u8],
) -> Result<usize, Refusal>
    requires { Receivable state.now out.old }
    ensures { Takes state.now (opened_in state.now datagram.now) out.old result out.new }
{
    let id = varint::read(datagram).ok_or(Refusal::CutDatagram)?;
    let body = &datagram[id.size..];
    if id.value == 0 {
        return take_full(state, body, out);
    }
    take_short(state, ContextId(id.value), body, out)
}

// The packet itself: it is judged where it lies.
fn take_full(state: &[u64; STATE_WORDS], body: &[u8], out: &mut [u8]) -> Result<usize, Refusal>
    requires { Receivable state.now out.old }
    ensures { Takes state.now (within_limit body.now) out.old result out.new }
{
    if MAX_PACKET < body.len() {
        return Err(Refusal::PacketTooLong);
    }
    take_in(state, body, out)
}

// A packet that a template completes.
fn take_short(
    state: &[u64; STATE_WORDS],
    id: ContextId,
    body: &[u8],
    out: &mut [u8],
) -> Result<usize, Refusal>
    requires { Receivable state.now out.old }
    ensures { Takes state.now (short_in state.now id.0 body.now) out.old result out.new }
{
    let table = &state[TABLE_AT..STORE_AT];
    let i = template::search::find_id(table, id).ok_or(Refusal::UnknownContext)?;
    let t = template_at(table, i);
    take_by(state, t, body, out)
}

// By the words of a template. It looks at no byte past the front of a packet: what lies behind is neither built nor moved before the packet is judged.
fn take_by(
    state: &[u64; STATE_WORDS],
    t: Template<'_>,
    body: &[u8],
    out: &mut [u8],
) -> Result<usize, Refusal>
    requires { Receivable state.now out.old }
    ensures { Takes state.now (open_short body.now (listed (template_of t.entry.words.now))) out.old result out.new }
{
    let size = t.static_size();
    let n = size + body.len();
    if !template::body::reaches(t, n) {
        return Err(Refusal::CutDatagram);
    }
    if MAX_PACKET < n {
        return Err(Refusal::PacketTooLong);
    }
    let used = n.min(STATIC_LIMIT) - size;
    take_rebuilt(state, t, &body[..used], &body[used..], out)
}

// From the bytes that go into the front of the packet, and those behind it.
fn take_rebuilt<'a>(
    state: &[u64; STATE_WORDS],
    t: Template<'_>,
    near: &'a [u8],
    far: &'a [u8],
    out: &mut [u8],
) -> Result<usize, Refusal>
    requires { (Receivable state.now out.old) × (Openable t.words.now near.now far.now) }
    ensures { Takes state.now (opens t.entry.words.now near.now far.now) out.old result out.new }
{
    let mut front = [0u8; STATIC_LIMIT];
    let n = template::body::rebuild(t, near, far, &mut front);
    take_joined(state, &front[..n], far, out)
}

// Judges a packet in two parts, and copies them to the front of out.
fn take_joined<'a>(
    state: &[u64; STATE_WORDS],
    front: &'a [u8],
    tail: &'a [u8],
    out: &mut [u8],
) -> Result<usize, Refusal>
    requires { Joinable state.now front.now tail.now out.old }
    ensures { Takes state.now (packet (front.now ++ tail.now)) out.old result out.new }
{
    judge(state, front, tail, false)?;
    let n = put_bytes(out, 0, front);
    Ok(put_bytes(out, n, tail))
}

// Judges a packet, and copies it to the front of out.
fn take_in(state: &[u64; STATE_WORDS], inner: &[u8], out: &mut [u8]) -> Result<usize, Refusal>
    requires { Takable state.now inner.now out.old }
    ensures { Takes state.now (packet inner.now) out.old result out.new }
{
    let size = inner.len();
    judge(state, inner, &inner[size..], false)?;
    Ok(octets::copy(inner, out))
}
