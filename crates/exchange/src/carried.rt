// The two lists that a capsule carries and a state keeps, in words: addresses and routes. Here is where they differ; what is done with one is in
// `reading` and `writing`, once for both.
ghost use Rattle.std.specs.Prelude.{◌≡◌, false, ℕ, Ok, List, Result, length, replicate};
ghost use Rattle.std.proofs.Common.{ap};
ghost use Rattle.answer.specs.declared.Refusal.{Refusal};
ghost use Rattle.answer.specs.Verdict.{Writes};
ghost use Rattle.lists.specs.Words.{address_words, route_words, entries_of, ranges_of, pack_entries, pack_ranges};
ghost use Rattle.capsule.specs.Elements.{parsed_verdict};
ghost use Rattle.capsule.specs.Capsules.{assign, advertise, capsule_bytes, entries_in, ranges_in};
ghost use Rattle.capsule_write.specs.Verdicts.{with_room, entries_verdict, ranges_verdict};
ghost use Rattle.grant.specs.declared.Grants.{Grants};
ghost use Rattle.grant.specs.Lists.{grants_in, put_grants, with_received_addresses, with_received_routes, with_given_addresses, with_given_routes};
ghost use Rattle.grant.proofs.StoreLaws.{put_received_addresses, put_received_routes, put_given_addresses, put_given_routes};
ghost use Rattle.exchange.specs.Reading.{receive_addresses, receive_routes};
ghost use Rattle.exchange.specs.Writing.{give_addresses, give_routes, entries_taken, ranges_taken};
ghost use Rattle.exchange.specs.Taken.{taken-entries-go, taken-entries, taken-ranges-go, taken-ranges};

use answer::Refusal;
use grant::Grants;
use lists::{ADDRESS_WORDS, AddressList, ROUTE_WORDS, RouteList};

pub(crate) trait CarriedList: Copy {
    // the words of no elements
    ghost cleared: { Self };

    // why a list is not written, and its capsule
    ghost verdict: { Self → Result Unit Refusal };

    ghost message: { Self → List ℕ };

    // why the bytes of a capsule's value are no list, the list that they are, and its capsule
    ghost value_verdict: { List ℕ → Result Unit Refusal };

    ghost value_list: { List ℕ → Self };

    ghost value_message: { List ℕ → List ℕ };

    // grants with the list received or given, and the words of a state with it
    ghost with_received: { Grants → Self → Grants };

    ghost with_given: { Grants → Self → Grants };

    ghost receive: { List ℕ → Self → List ℕ };

    ghost give: { List ℕ → Self → List ℕ };

    fn cleared() -> Self
        ensures { result ≡ cleared };

    // Reads the bytes of a value into words that are cleared.
    fn read(&mut self, value: &[u8]) -> Result<(), Refusal>
        requires { self.old ≡ cleared }
        ensures verdict { result ≡ value_verdict value.now }
        ensures list { result ≡ Ok tt → self.new ≡ value_list value.now };

    // Writes the capsule of the list.
    fn write(&self, out: &mut [u8]) -> Result<usize, Refusal>
        ensures { Writes (with_room (length out.old) (verdict self.now)) (message self.now) out.old result out.new };

    fn with_received(grants: Grants, list: Self) -> Grants
        ensures { result ≡ with_received grants list };

    fn with_given(grants: Grants, list: Self) -> Grants
        ensures { result ≡ with_given grants list };

    // grants loaded from a state, the list replaced, and stored again: that list is stored
    ghost stores_received: { (w : List ℕ) (l : Self) → put_grants w (with_received (grants_in w) l) ≡ receive w l };

    ghost stores_given: { (w : List ℕ) (l : Self) → put_grants w (with_given (grants_in w) l) ≡ give w l };

    // a list that was read is written as it was read
    ghost writes_value: { (v : List ℕ) → value_verdict v ≡ Ok tt → (verdict (value_list v) ≡ Ok tt) × (message (value_list v) ≡ value_message v) };
}

impl CarriedList for [u64; ADDRESS_WORDS] {
    ghost cleared = { replicate address_words 0 };

    ghost verdict = { entries_verdict false };

    ghost message = { λ l. capsule_bytes (assign (entries_of l)) };

    ghost value_verdict = { λ v. parsed_verdict (entries_in false v) };

    ghost value_list = { λ v. pack_entries (entries_taken v) };

    ghost value_message = { λ v. capsule_bytes (assign (entries_taken v)) };

    ghost with_received = { λ g l. with_received_addresses g (record { words = l }) };

    ghost with_given = { λ g l. with_given_addresses g (record { words = l }) };

    ghost receive = { receive_addresses };

    ghost give = { give_addresses };

    ghost stores_received = { λ w l. put_received_addresses w (record { words = l }) };

    ghost stores_given = { λ w l. put_given_addresses w (record { words = l }) };

    ghost writes_value = { λ v e. (taken-entries-go false v e, ap (λ es. capsule_bytes (assign es)) (taken-entries false v e)) };

    fn cleared() -> [u64; ADDRESS_WORDS] {
        [0; ADDRESS_WORDS]
    }

    fn read(&mut self, value: &[u8]) -> Result<(), Refusal> {
        capsule::entries_into(value, false, self)
    }

    fn write(&self, out: &mut [u8]) -> Result<usize, Refusal> {
        capsule_write::write_assign(self, out)
    }

    fn with_received(grants: Grants, list: [u64; ADDRESS_WORDS]) -> Grants {
        grants.with_received_addresses(AddressList { words: list })
    }

    fn with_given(grants: Grants, list: [u64; ADDRESS_WORDS]) -> Grants {
        grants.with_given_addresses(AddressList { words: list })
    }
}

impl CarriedList for [u64; ROUTE_WORDS] {
    ghost cleared = { replicate route_words 0 };

    ghost verdict = { ranges_verdict };

    ghost message = { λ l. capsule_bytes (advertise (ranges_of l)) };

    ghost value_verdict = { λ v. parsed_verdict (ranges_in v) };

    ghost value_list = { λ v. pack_ranges (ranges_taken v) };

    ghost value_message = { λ v. capsule_bytes (advertise (ranges_taken v)) };

    ghost with_received = { λ g l. with_received_routes g (record { words = l }) };

    ghost with_given = { λ g l. with_given_routes g (record { words = l }) };

    ghost receive = { receive_routes };

    ghost give = { give_routes };

    ghost stores_received = { λ w l. put_received_routes w (record { words = l }) };

    ghost stores_given = { λ w l. put_given_routes w (record { words = l }) };

    ghost writes_value = { λ v e. (taken-ranges-go v e, ap (λ rs. capsule_bytes (advertise rs)) (taken-ranges v e)) };

    fn cleared() -> [u64; ROUTE_WORDS] {
        [0; ROUTE_WORDS]
    }

    fn read(&mut self, value: &[u8]) -> Result<(), Refusal> {
        capsule::ranges_into(value, self)
    }

    fn write(&self, out: &mut [u8]) -> Result<usize, Refusal> {
        capsule_write::write_routes(self, out)
    }

    fn with_received(grants: Grants, list: [u64; ROUTE_WORDS]) -> Grants {
        grants.with_received_routes(RouteList { words: list })
    }

    fn with_given(grants: Grants, list: [u64; ROUTE_WORDS]) -> Grants {
        grants.with_given_routes(RouteList { words: list })
    }
}
