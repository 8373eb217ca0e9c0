// A list written as its capsule, which becomes the given one: from words, or from bytes as in the value of that capsule.
ghost use Rattle.std.specs.Prelude.{◌≡◌, ◌≤◌, Ok, length};
ghost use Rattle.capsule_write.specs.Verdicts.{capsule_room};
ghost use Rattle.exchange.specs.Writing.{ready, Gives, Assigns, Advertises, AssignsValue, AdvertisesValue, RequestsValue};

use super::carried::CarriedList;
use answer::Refusal;
use capsule_write::CAPSULE_ROOM;
use lists::{ADDRESS_WORDS, ROUTE_WORDS};
use state::STATE_WORDS;

// An ADDRESS_ASSIGN of the list, which becomes the given one.
pub fn write_assign(
    state: &mut [u64; STATE_WORDS],
    list: &[u64; ADDRESS_WORDS],
    out: &mut [u8],
) -> Result<usize, Refusal>
    ensures { Assigns state.old list.now out.old result state.new out.new }
{
    write_list(state, list, out)
}

// A ROUTE_ADVERTISEMENT of the list, which becomes the given one.
pub fn write_routes(
    state: &mut [u64; STATE_WORDS],
    list: &[u64; ROUTE_WORDS],
    out: &mut [u8],
) -> Result<usize, Refusal>
    ensures { Advertises state.old list.now out.old result state.new out.new }
{
    write_list(state, list, out)
}

// The same from the bytes of the entries.
pub fn assign(
    state: &mut [u64; STATE_WORDS],
    value: &[u8],
    out: &mut [u8],
) -> Result<usize, Refusal>
    ensures { AssignsValue state.old value.now out.old result state.new out.new }
{
    write_value::<[u64; ADDRESS_WORDS]>(state, value, out)
}

// The same from the bytes of the ranges.
pub fn advertise(
    state: &mut [u64; STATE_WORDS],
    value: &[u8],
    out: &mut [u8],
) -> Result<usize, Refusal>
    ensures { AdvertisesValue state.old value.now out.old result state.new out.new }
{
    write_value::<[u64; ROUTE_WORDS]>(state, value, out)
}

// An ADDRESS_REQUEST from the bytes of the entries. It changes no list.
pub fn request(value: &[u8], out: &mut [u8]) -> Result<usize, Refusal>
    ensures { RequestsValue value.now out.old result out.new }
{
    if out.len() < CAPSULE_ROOM {
        return Err(Refusal::NoRoom);
    }
    let mut words = [0u64; ADDRESS_WORDS];
    capsule::entries_into(value, true, &mut words)?;
    capsule_write::write_request(&words, out)
}

// The capsule of a list in words.
fn write_list<L: CarriedList>(
    state: &mut [u64; STATE_WORDS],
    list: &L,
    out: &mut [u8],
) -> Result<usize, Refusal>
    ensures { Gives (ready (length out.old) state.old (L.verdict list.now)) (L.message list.now) (L.give state.old list.now) state.old out.old result state.new out.new }
{
    ready(state, out.len())?;
    give(state, list, out)
}

// The same from the bytes of its elements.
fn write_value<L: CarriedList>(
    state: &mut [u64; STATE_WORDS],
    value: &[u8],
    out: &mut [u8],
) -> Result<usize, Refusal>
    ensures { Gives (ready (length out.old) state.old (L.value_verdict value.now)) (L.value_message value.now) (L.give state.old (L.value_list value.now)) state.old out.old result state.new out.new }
{
    ready(state, out.len())?;
    let mut list = L::cleared();
    list.read(value)?;
    give(state, &list, out)
}

// Why nothing is written to an output of so many bytes, whatever the list.
fn ready(state: &[u64; STATE_WORDS], room: usize) -> Result<(), Refusal>
    ensures { result ≡ ready room state.now (Ok tt) }
{
    if room < CAPSULE_ROOM {
        return Err(Refusal::NoRoom);
    }
    if !state::state_sound(state) {
        return Err(Refusal::BrokenState);
    }
    Ok(())
}

// Writes the capsule, and stores the list where it was written.
fn give<L: CarriedList>(
    state: &mut [u64; STATE_WORDS],
    list: &L,
    out: &mut [u8],
) -> Result<usize, Refusal>
    requires { capsule_room ≤ length out.old }
    ensures { Gives (L.verdict list.now) (L.message list.now) (L.give state.old list.now) state.old out.old result state.new out.new }
{
    let size = list.write(out)?;
    store(state, *list);
    Ok(size)
}

fn store<L: CarriedList>(state: &mut [u64; STATE_WORDS], list: L)
    ensures { state.new ≡ L.give state.old list }
{
    let grants = grant::grants_in(state);
    grant::put_grants(state, L::with_given(grants, list));
}
