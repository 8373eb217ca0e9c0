// The lent plan loaded from its file, and its file written.
ghost use Rattle.answer.specs.Number.{verdict_number};
ghost use Rattle.octets.specs.Parts.{part};
ghost use Rattle.table.specs.Words.{table_words};
ghost use Rattle.state.specs.State.{table_at};
ghost use Rattle.state.specs.Loading.{LoadsPlan};
ghost use Rattle.plan_write.specs.Writing.{WritesPlan};
ghost use Rattle.tunnel_c.specs.Plain.{plain_answer, Plainly};

use super::{PlainAnswer, plain};
use state::{STATE_WORDS, STORE_AT, TABLE_AT};
use table::TABLE_WORDS;

// A good plan file replaces the templates.
pub fn whapirohi_load_plan(state: &mut [u64; STATE_WORDS], file: &[u8]) -> u64
    ensures { Plainly verdict_number (λ v. LoadsPlan file.now state.old v state.new) result }
{
    let verdict = state::load_plan(state, file);
    answer::number_of(&verdict) as u64
}

// The file of the templates.
pub fn whapirohi_write_plan(state: &[u64; STATE_WORDS], out: &mut [u8]) -> PlainAnswer
    ensures { Plainly plain_answer (λ a. WritesPlan (part state.now table_at table_words) out.old a out.new) result }
{
    let all = &state[..];
    let mut words = [0u64; TABLE_WORDS];
    words.copy_from_slice(&all[TABLE_AT..STORE_AT]);
    let answer = plan_write::write_plan(&words, out);
    plain(answer)
}
