// What C calls: the functions of `tunnel_c` under their names, each with the same promise. There is no code here but these calls; `include/whapirohi.h` declares them.
#![tactic(auto)]

ghost use Rattle.std.specs.Prelude.{◌≡◌, replicate};
ghost use Rattle.answer.specs.Number.{verdict_number};
ghost use Rattle.octets.specs.Parts.{part};
ghost use Rattle.varint.specs.Numbers.{read_number};
ghost use Rattle.capsule_write.specs.Verdicts.{DatagramWritten, RequestWritten};
ghost use Rattle.table.specs.Words.{table_words};
ghost use Rattle.plan_write.specs.Writing.{WritesPlan};
ghost use Rattle.state.specs.State.{state_words, table_at};
ghost use Rattle.state.specs.Loading.{LoadsPlan};
ghost use Rattle.stream.specs.Feeding.{kept_size};
ghost use Rattle.tunnel.specs.Tunnel.{Sends, Receives};
ghost use Rattle.tunnel_c.specs.Plain.{plain_answer, plain_number, NumberPlainly, state_bytes, Plainly, ReadsPlainly, AssignsPlainly, AdvertisesPlainly, FeedsPlainly};

use lists::{ADDRESS_WORDS, ROUTE_WORDS};
use state::STATE_WORDS;
use stream::KEPT_SIZE;
use tunnel_c::{PlainAnswer, PlainCapsule, PlainNumber, PlainPiece};

// How many bytes the state takes.
#[unsafe(no_mangle)]
pub extern "C" fn whapirohi_state_size() -> u64
    ensures { result ≡ state_bytes }
{
    tunnel_c::whapirohi_state_size()
}

// How many bytes the memory for an unfinished capsule takes.
#[unsafe(no_mangle)]
pub extern "C" fn whapirohi_kept_size() -> u64
    ensures { result ≡ kept_size }
{
    tunnel_c::whapirohi_kept_size()
}

// The state at the start: no grants, no templates.
#[unsafe(no_mangle)]
pub extern "C" fn whapirohi_start(state: &mut [u64; STATE_WORDS])
    ensures { state.new ≡ replicate state_words 0 }
{
    tunnel_c::whapirohi_start(state)
}

// A good plan file replaces the templates.
#[unsafe(no_mangle)]
pub extern "C" fn whapirohi_load_plan(state: &mut [u64; STATE_WORDS], file: &[u8]) -> u64
    ensures { Plainly verdict_number (λ v. LoadsPlan file.now state.old v state.new) result }
{
    tunnel_c::whapirohi_load_plan(state, file)
}

// The file of the templates.
#[unsafe(no_mangle)]
pub extern "C" fn whapirohi_write_plan(state: &[u64; STATE_WORDS], out: &mut [u8]) -> PlainAnswer
    ensures { Plainly plain_answer (λ a. WritesPlan (part state.now table_at table_words) out.old a out.new) result }
{
    tunnel_c::whapirohi_write_plan(state, out)
}

// The capsule at a place of the buffer. A good list replaces the received one; requested entries go to the host's memory for them.
#[unsafe(no_mangle)]
pub extern "C" fn whapirohi_read_capsule(
    state: &mut [u64; STATE_WORDS],
    bytes: &[u8],
    at: usize,
    requested: &mut [u64; ADDRESS_WORDS],
) -> PlainCapsule
    ensures { ReadsPlainly state.old bytes.now at requested.old result state.new requested.new }
{
    tunnel_c::whapirohi_read_capsule(state, bytes, at, requested)
}

// Bytes of the stream, up to the end of one capsule. The value of a DATAGRAM goes to the front of out, requested entries to the host's memory for them, and
// a good list replaces the received one.
#[unsafe(no_mangle)]
pub extern "C" fn whapirohi_feed(
    state: &mut [u64; STATE_WORDS],
    kept: &mut [u8; KEPT_SIZE],
    bytes: &[u8],
    out: &mut [u8],
    requested: &mut [u64; ADDRESS_WORDS],
) -> PlainPiece
    ensures { FeedsPlainly state.old kept.old bytes.now out.old requested.old result
        state.new kept.new out.new requested.new }
{
    tunnel_c::whapirohi_feed(state, kept, bytes, out, requested)
}

// An ADDRESS_ASSIGN of the list, which becomes the given one.
#[unsafe(no_mangle)]
pub extern "C" fn whapirohi_write_assign(
    state: &mut [u64; STATE_WORDS],
    list: &[u64; ADDRESS_WORDS],
    out: &mut [u8],
) -> PlainAnswer
    ensures { AssignsPlainly state.old list.now out.old result state.new out.new }
{
    tunnel_c::whapirohi_write_assign(state, list, out)
}

// A ROUTE_ADVERTISEMENT of the list, which becomes the given one.
#[unsafe(no_mangle)]
pub extern "C" fn whapirohi_write_routes(
    state: &mut [u64; STATE_WORDS],
    list: &[u64; ROUTE_WORDS],
    out: &mut [u8],
) -> PlainAnswer
    ensures { AdvertisesPlainly state.old list.now out.old result state.new out.new }
{
    tunnel_c::whapirohi_write_routes(state, list, out)
}

// A packet from a tablet: the datagram goes to the front of out.
#[unsafe(no_mangle)]
pub extern "C" fn whapirohi_send<'a>(
    state: &'a [u64; STATE_WORDS],
    packet: &'a [u8],
    out: &mut [u8],
) -> PlainAnswer
    ensures { Plainly plain_answer (λ a. Sends state.now packet.now out.old a out.new) result }
{
    tunnel_c::whapirohi_send(state, packet, out)
}

// A datagram from the link: the packet goes to the front of out.
#[unsafe(no_mangle)]
pub extern "C" fn whapirohi_receive<'a>(
    state: &'a [u64; STATE_WORDS],
    datagram: &'a [u8],
    out: &mut [u8],
) -> PlainAnswer
    ensures { Plainly plain_answer (λ a. Receives state.now datagram.now out.old a out.new) result }
{
    tunnel_c::whapirohi_receive(state, datagram, out)
}

// A number read by itself.
#[unsafe(no_mangle)]
pub extern "C" fn whapirohi_read_number(bytes: &[u8]) -> PlainNumber
    ensures { result ≡ plain_number (read_number bytes.now) }
{
    tunnel_c::whapirohi_read_number(bytes)
}

// A number written by itself.
#[unsafe(no_mangle)]
pub extern "C" fn whapirohi_write_number(value: u64, out: &mut [u8]) -> PlainAnswer
    ensures { NumberPlainly value out.old result out.new }
{
    tunnel_c::whapirohi_write_number(value, out)
}

// A DATAGRAM with this value.
#[unsafe(no_mangle)]
pub extern "C" fn whapirohi_write_datagram(value: &[u8], out: &mut [u8]) -> PlainAnswer
    ensures { Plainly plain_answer (λ a. DatagramWritten value.now out.old a out.new) result }
{
    tunnel_c::whapirohi_write_datagram(value, out)
}

// An ADDRESS_REQUEST with these entries.
#[unsafe(no_mangle)]
pub extern "C" fn whapirohi_write_request(
    list: &[u64; ADDRESS_WORDS],
    out: &mut [u8],
) -> PlainAnswer
    ensures { Plainly plain_answer (λ a. RequestWritten list.now out.old a out.new) result }
{
    tunnel_c::whapirohi_write_request(list, out)
}
