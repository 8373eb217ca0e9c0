// Whether a packet may go on: its form, its hop count where it is sent, and what the grants in force say of it.
ghost use Rattle.std.specs.Prelude.{◌≡◌, true, ◌&&◌, ◌++◌, ◌≤◌, ltb, length};
ghost use Rattle.answer.specs.Verdict.{first_of};
ghost use Rattle.inet.specs.Packet.{hops_of};
ghost use Rattle.inet.specs.Fronts.{Parted, Addressed};
ghost use Rattle.state.specs.State.{state_in, sound_state};
ghost use Rattle.policy.specs.Parts.{flow_with};
ghost use Rattle.tunnel.specs.Judging.{grants, judge_tests};

use answer::Refusal;
use inet::packet::{carried, hops};
use policy::SIDE_WORDS;
use state::{GIVEN_AT, RECEIVED_AT, STATE_WORDS};

// The first reason not to send on a packet in two parts, or else not to take it in, or `Ok`. It looks at its front, and at headers of IPv6 that go on behind it.
pub(crate) fn judge<'a>(
    state: &[u64; STATE_WORDS],
    front: &'a [u8],
    tail: &'a [u8],
    sending: bool,
) -> Result<(), Refusal>
    requires { (sound_state (state_in state.now) ≡ true) × Parted front.now tail.now }
    ensures { result ≡ first_of (judge_tests sending (state_in state.now) (front.now ++ tail.now)) }
{
    let Some(protocol) = carried(front, tail) else {
        return Err(Refusal::BadForm);
    };
    if spent(front, sending) {
        return Err(Refusal::HopLimit);
    }
    if !granted(state, front, protocol, sending) {
        return Err(Refusal::NotGranted);
    }
    Ok(())
}

// Whether a packet has no hop left to be sent; receiving asks for none.
fn spent(front: &[u8], sending: bool) -> bool
    ensures { result ≡ (sending && ltb (hops_of front.now) 2) }
{
    sending && hops(front) < 2
}

// Whether a packet that carries a protocol may be sent, or else received, by its front. Sending is granted by the received side, or as a reply by the given one;
// receiving the other way round.
// The sides are picked by where they stand, so that there is one call of `passes`, and the compiler keeps all of it in one function.
fn granted(state: &[u64; STATE_WORDS], front: &[u8], protocol: u8, sending: bool) -> bool
    requires { (sound_state (state_in state.now) ≡ true) × Addressed front.now }
    ensures { result ≡ grants sending (state_in state.now) (flow_with protocol front.now) }
{
    let first = if sending { RECEIVED_AT } else { GIVEN_AT };
    let second = if sending { GIVEN_AT } else { RECEIVED_AT };
    let side = &state[first..first + SIDE_WORDS];
    let reply = &state[second..second + SIDE_WORDS];
    policy::passes(side, reply, policy::flow_of(front, protocol))
}
