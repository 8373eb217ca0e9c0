// Packets sent and received under the lent state, of which nothing is copied.
ghost use Rattle.tunnel.specs.Tunnel.{Sends, Receives};
ghost use Rattle.tunnel_c.specs.Plain.{plain_answer, Plainly};

use super::{PlainAnswer, plain};
use state::STATE_WORDS;

// A packet from a tablet: the datagram goes to the front of out.
pub fn whapirohi_send<'a>(
    state: &'a [u64; STATE_WORDS],
    packet: &'a [u8],
    out: &mut [u8],
) -> PlainAnswer
    ensures { Plainly plain_answer (λ a. Sends state.now packet.now out.old a out.new) result }
{
    let answer = tunnel::send(state, packet, out);
    plain(answer)
}

// A datagram from the link: the packet goes to the front of out.
pub fn whapirohi_receive<'a>(
    state: &'a [u64; STATE_WORDS],
    datagram: &'a [u8],
    out: &mut [u8],
) -> PlainAnswer
    ensures { Plainly plain_answer (λ a. Receives state.now datagram.now out.old a out.new) result }
{
    let answer = tunnel::receive(state, datagram, out);
    plain(answer)
}
