// From a packet to a datagram.
ghost use Rattle.std.specs.Prelude.{◌≡◌, ◌+◌, ◌≤◌, length};
ghost use Rattle.inet.specs.Packet.{Form, hops_of, lowered};
ghost use Rattle.output.specs.Places.{Put};
ghost use Rattle.table.specs.Words.{table_words, template_of, templates_of};
ghost use Rattle.state.specs.State.{state_in};
ghost use Rattle.template.specs.Datagrams.{short_form, full_form, datagram};
ghost use Rattle.tunnel.specs.Tunnel.{send_verdict, Sends};
ghost use Rattle.tunnel.specs.Sending.{Sendable, Shortable};

use super::SEND_ROOM;
use super::judging::judge;
use answer::Refusal;
use inet::lower::lower_into;
use state::{STATE_WORDS, STORE_AT, TABLE_AT, state_sound};
use table::{STATIC_LIMIT, Template, template_at};
use template::MAX_PACKET;
use template::body::shorten;
use template::checksum::put_seed;
use template::search::find;
use varint::put_number;

// Sends a packet: the datagram goes to the front of out.
pub fn send(state: &[u64; STATE_WORDS], packet: &[u8], out: &mut [u8]) -> Result<usize, Refusal>
    ensures { Sends state.now packet.now out.old result out.new }
{
    send_verdict(state, packet, out.len())?;
    Ok(put_sent(&state[TABLE_AT..STORE_AT], packet, out))
}

// The first reason not to send, or `Ok`.
fn send_verdict(state: &[u64; STATE_WORDS], packet: &[u8], room: usize) -> Result<(), Refusal>
    ensures { result ≡ send_verdict (state_in state.now) packet.now room }
{
    if room < SEND_ROOM {
        return Err(Refusal::NoRoom);
    }
    if !state_sound(state) {
        return Err(Refusal::BrokenState);
    }
    if MAX_PACKET < packet.len() {
        return Err(Refusal::PacketTooLong);
    }
    let n = packet.len();
    // taken apart: handed on as a whole, its two bytes would be read at once, of which an `Ok` writes one, and the processor waits for such a read
    judge(state, packet, &packet[n..], true)?;
    Ok(())
}

// Writes the datagram of the lowered packet. A table of no templates needs no search.
fn put_sent(table: &[u64], packet: &[u8], out: &mut [u8]) -> usize
    requires table_words_in_bounds { table_words ≤ length table.now }
    requires sendable { Sendable table.now packet.now out.old }
    ensures { Put (datagram (templates_of table.now) (lowered packet.now)) 0 out.old result out.new }
{
    if table[0] == 0 {
        return put_plain(packet, out);
    }
    put_searched(table, packet, out)
}

// The same where there are templates: short by the first one that fits, else in full. Lowering and templates look at no byte past the front of a packet,
// but for its sum, and alter none: only the front is copied for them, and the rest goes from the packet to out.
fn put_searched(table: &[u64], packet: &[u8], out: &mut [u8]) -> usize
    requires table_words_in_bounds { table_words ≤ length table.now }
    requires sendable { Sendable table.now packet.now out.old }
    ensures { Put (datagram (templates_of table.now) (lowered packet.now)) 0 out.old result out.new }
{
    let mut front = [0u8; STATIC_LIMIT];
    let n = packet.len().min(STATIC_LIMIT);
    lower_into(&packet[..n], &mut front);
    let Some(fit) = find(table, &front[..n], packet) else {
        return put_plain(packet, out);
    };
    let t = template_at(table, fit.place);
    put_short(t, fit.seed, packet, &mut front[..n], out)
}

// The full form of the lowered packet, which is lowered where it goes.
fn put_plain(packet: &[u8], out: &mut [u8]) -> usize
    requires { (Form packet.now) × (1 ≤ hops_of packet.now) × (1 + length packet.now ≤ length out.old) }
    ensures { Put (full_form (lowered packet.now)) 0 out.old result out.new }
{
    out[0] = 0;
    lower_into(packet, &mut out[1..]);
    1 + packet.len()
}

// The short form by a template: the Context ID, then the bytes outside all segments with the seed, `first`, in the field.
fn put_short(t: Template<'_>, first: u64, packet: &[u8], front: &mut [u8], out: &mut [u8]) -> usize
    requires { Shortable t.words.now first front.old packet.now out.old }
    ensures { Put (short_form (template_of t.entry.words.now) (lowered packet.now)) 0 out.old result out.new }
{
    let id = t.head().id;
    let at = put_number(out, 0, id.0);
    put_seed(t, first, front);
    let n = front.len();
    shorten(t, front, &packet[n..], out, at)
}
