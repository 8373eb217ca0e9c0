// The grants in force between two ends, by value: the lists received from the other end, and those given to it. They are loaded from a state,
// come back with exactly one list replaced, and are stored again; what capsules do to them is in the crate above.
#![tactic(auto)]

ghost use Rattle.std.specs.Prelude.{◌≡◌, ◌≤◌, length};
ghost use Rattle.state.specs.State.{state_words};
ghost use Rattle.grant.specs.Lists.{no_grants, grants_in, put_grants, Stored};
ghost use Rattle.grant.specs.Lists.{with_received_addresses, with_received_routes, with_given_addresses, with_given_routes};

use lists::{ADDRESS_WORDS, AddressList, ROUTE_WORDS, RouteList};
use state::{GIVEN_AT, RECEIVED_AT, TABLE_AT};

// Where the routes of each side start in a state.
const RECEIVED_ROUTES_AT: usize = RECEIVED_AT + ADDRESS_WORDS;

const GIVEN_ROUTES_AT: usize = GIVEN_AT + ADDRESS_WORDS;

#[repr(C)]
#[derive(Clone, Copy)]
pub struct Grants {
    pub received_addresses: AddressList,
    pub received_routes: RouteList,
    pub given_addresses: AddressList,
    pub given_routes: RouteList,
}

impl Grants {
    // No grants.
    pub fn empty() -> Grants
        ensures { result ≡ no_grants }
    {
        let addresses = AddressList::empty();
        let routes = RouteList::empty();
        Grants {
            received_addresses: addresses,
            received_routes: routes,
            given_addresses: addresses,
            given_routes: routes,
        }
    }

    // The grants with one list replaced.
    pub fn with_received_addresses(self, list: AddressList) -> Grants
        ensures { result ≡ with_received_addresses self list }
    {
        Grants {
            received_addresses: list,
            ..self
        }
    }

    pub fn with_received_routes(self, list: RouteList) -> Grants
        ensures { result ≡ with_received_routes self list }
    {
        Grants {
            received_routes: list,
            ..self
        }
    }

    pub fn with_given_addresses(self, list: AddressList) -> Grants
        ensures { result ≡ with_given_addresses self list }
    {
        Grants {
            given_addresses: list,
            ..self
        }
    }

    pub fn with_given_routes(self, list: RouteList) -> Grants
        ensures { result ≡ with_given_routes self list }
    {
        Grants {
            given_routes: list,
            ..self
        }
    }
}

// The grants of a state, lent as a slice here and below: an array would ask more of callers than the words that are read.
pub fn grants_in(state: &[u64]) -> Grants
    requires { state_words ≤ length state.now }
    ensures { result ≡ grants_in state.now }
{
    Grants {
        received_addresses: AddressList {
            words: words_in(&state[RECEIVED_AT..RECEIVED_ROUTES_AT]),
        },
        received_routes: RouteList {
            words: words_in(&state[RECEIVED_ROUTES_AT..GIVEN_AT]),
        },
        given_addresses: AddressList {
            words: words_in(&state[GIVEN_AT..GIVEN_ROUTES_AT]),
        },
        given_routes: RouteList {
            words: words_in(&state[GIVEN_ROUTES_AT..TABLE_AT]),
        },
    }
}

// Stores the grants in a state; its templates stay as they are.
pub fn put_grants(state: &mut [u64], g: Grants)
    requires { state_words ≤ length state.old }
    ensures { state.new ≡ put_grants state.old g }
{
    put_words(
        &mut state[RECEIVED_AT..RECEIVED_ROUTES_AT],
        &g.received_addresses.words,
    );
    put_words(
        &mut state[RECEIVED_ROUTES_AT..GIVEN_AT],
        &g.received_routes.words,
    );
    put_words(
        &mut state[GIVEN_AT..GIVEN_ROUTES_AT],
        &g.given_addresses.words,
    );
    put_words(&mut state[GIVEN_ROUTES_AT..TABLE_AT], &g.given_routes.words);
}

// The words of one list, by value.
fn words_in<const N: usize>(from: &[u64]) -> [u64; N]
    requires { length from.now ≡ N }
    ensures { result ≡ from.now }
{
    let mut words = [0u64; N];
    words.copy_from_slice(from);
    words
}

// The words of one list, stored. They are lent as an array, so that their number is known.
fn put_words<const N: usize>(to: &mut [u64], words: &[u64; N])
    requires { length to.old ≡ N }
    ensures { Stored N words.now to.new }
{
    to.copy_from_slice(words);
}
