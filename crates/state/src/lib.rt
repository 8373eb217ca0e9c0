// The state of one tunnel, in one array of words that a host lends: what was received from the other end, what was given to it, the table
// of templates, and what is kept of an unfinished capsule. The parts stand one after the other. The judge answers yes or no; loading a plan file refuses as reading it does (20 to 25).
#![tactic(auto)]

ghost use Rattle.std.specs.Prelude.{◌≡◌, ◌≤◌, length};
ghost use Rattle.octets.specs.Parts.{with_part};
ghost use Rattle.state.specs.State.{table_at, store_at, state_words, state_in, sound_state};
ghost use Rattle.state.specs.Loading.{LoadsPlan};

use answer::Refusal;
use policy::SIDE_WORDS;
use table::TABLE_WORDS;

// Where each part starts; each ends where the next starts.
pub const RECEIVED_AT: usize = 0;

pub const GIVEN_AT: usize = RECEIVED_AT + SIDE_WORDS;

pub const TABLE_AT: usize = GIVEN_AT + SIDE_WORDS;

pub const STORE_AT: usize = TABLE_AT + TABLE_WORDS;

// The words of a store: how many bytes of a capsule are kept, how many of a skipped one are still to come, and the number of the refusal that is
// remembered.
pub const STORE_WORDS: usize = 3;

// The words of a state.
pub const STATE_WORDS: usize = STORE_AT + STORE_WORDS;

// Whether a state keeps its rules: those of both sides, and those of its templates. The store is not looked at. Short sides are asked for first: `side_sound` has
// loops, for which it saves registers whatever the lists are.
// A slice, and not the array of a state: an array would ask more of callers than the words that are read.
pub fn state_sound(state: &[u64]) -> bool
    requires { state_words ≤ length state.now }
    ensures { result ≡ sound_state (state_in state.now) }
{
    let received = &state[RECEIVED_AT..GIVEN_AT];
    let given = &state[GIVEN_AT..TABLE_AT];
    (policy::short_sound(received) || policy::side_sound(received))
        && (policy::short_sound(given) || policy::side_sound(given))
        && table::table_sound(&state[TABLE_AT..STORE_AT])
}

// Loads the templates of a plan file. A refusal leaves every word; nothing of what the state holds is looked at.
pub fn load_plan(state: &mut [u64; STATE_WORDS], file: &[u8]) -> Result<(), Refusal>
    ensures { LoadsPlan file.now state.old result state.new }
{
    let mut words = [0u64; TABLE_WORDS];
    table::read_plan(file, &mut words)?;
    put_table(state, &words);
    Ok(())
}

// Stores the words of a table.
fn put_table(state: &mut [u64; STATE_WORDS], words: &[u64; TABLE_WORDS])
    ensures { state.new ≡ with_part state.old table_at store_at words.now }
{
    state[TABLE_AT..STORE_AT].copy_from_slice(words);
}
