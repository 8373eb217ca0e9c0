// A capsule read at a place of a buffer: its list goes to where it belongs.
ghost use Rattle.std.specs.Prelude.{◌≡◌};
ghost use Rattle.exchange.specs.Reading.{ReadsCapsule, TakesCapsule, TakesList, TakesRequest, TakesValue};

use super::carried::CarriedList;
use answer::Refusal;
use capsule::{CapsuleRead, Kind};
use lists::{ADDRESS_WORDS, ROUTE_WORDS};
use state::STATE_WORDS;

// The capsule at a place of the buffer. The list of an ADDRESS_ASSIGN or a ROUTE_ADVERTISEMENT becomes the received one, and the entries of an
// ADDRESS_REQUEST are handed back; all other capsules touch nothing.
pub fn read_capsule(
    state: &mut [u64; STATE_WORDS],
    bytes: &[u8],
    at: usize,
    requested: &mut [u64; ADDRESS_WORDS],
) -> Result<CapsuleRead, Refusal>
    ensures { ReadsCapsule state.old bytes.now at requested.old result state.new requested.new }
{
    if !state::state_sound(state) {
        return Err(Refusal::BrokenState);
    }
    let found = capsule::frame(bytes, at)?;
    match found.kind {
        // all that has no list is done with here, before a function that has room for one on its stack
        Kind::Datagram | Kind::Other => Ok(found),
        Kind::AddressAssign | Kind::AddressRequest | Kind::RouteAdvertisement => take_capsule(
            state, bytes, at, requested,
        ),
    }
}

// The same where the state was judged: it is not looked at.
pub fn take_capsule(
    state: &mut [u64; STATE_WORDS],
    bytes: &[u8],
    at: usize,
    requested: &mut [u64; ADDRESS_WORDS],
) -> Result<CapsuleRead, Refusal>
    ensures { TakesCapsule state.old bytes.now at requested.old result state.new requested.new }
{
    let found = capsule::frame(bytes, at)?;
    take_value(
        state,
        found.kind,
        &bytes[found.start..found.next],
        requested,
    )?;
    Ok(found)
}

// The value of a capsule, by its kind.
fn take_value(
    state: &mut [u64; STATE_WORDS],
    kind: Kind,
    value: &[u8],
    requested: &mut [u64; ADDRESS_WORDS],
) -> Result<(), Refusal>
    ensures { TakesValue state.old kind value.now requested.old result state.new requested.new }
{
    match kind {
        Kind::AddressAssign => take_list::<[u64; ADDRESS_WORDS]>(state, value),
        Kind::AddressRequest => take_request(requested, value),
        Kind::RouteAdvertisement => take_list::<[u64; ROUTE_WORDS]>(state, value),
        Kind::Datagram | Kind::Other => Ok(()),
    }
}

// A list that replaces the received one.
fn take_list<L: CarriedList>(state: &mut [u64; STATE_WORDS], value: &[u8]) -> Result<(), Refusal>
    ensures { TakesList (L.value_verdict value.now) (L.receive state.old (L.value_list value.now)) state.old result state.new }
{
    let mut list = L::cleared();
    list.read(value)?;
    receive(state, list);
    Ok(())
}

// The entries of a request, which are handed back.
fn take_request(requested: &mut [u64; ADDRESS_WORDS], value: &[u8]) -> Result<(), Refusal>
    ensures { TakesRequest requested.old value.now result requested.new }
{
    let mut words = [0u64; ADDRESS_WORDS];
    capsule::entries_into(value, true, &mut words)?;
    *requested = words;
    Ok(())
}

fn receive<L: CarriedList>(state: &mut [u64; STATE_WORDS], list: L)
    ensures { state.new ≡ L.receive state.old list }
{
    let grants = grant::grants_in(state);
    grant::put_grants(state, L::with_received(grants, list));
}
