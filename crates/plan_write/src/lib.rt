// The plan file written from the words of a table to a lent output, with every number in its shortest form. Refused: an output under 1,400 bytes (16),
// then the first fault of the templates in the order of their file (25, 23). One table has exactly one file. A refusal alters no byte.
#![tactic(auto)]

mod template_file;

ghost use Rattle.std.specs.Prelude.{◌≡◌, true, [], ◌∷◌, ◌++◌, ◌+◌, ◌<◌, ◌≤◌, length};
ghost use Rattle.output.specs.Places.{Put};
ghost use Rattle.table.specs.Words.{table_words, templates_of};
ghost use Rattle.table.specs.Rules.{plan_room, sound_templates};
ghost use Rattle.table.specs.File.{mark, version, templates_bytes, plan_bytes};
ghost use Rattle.table.specs.Sound.{Usable};
ghost use Rattle.plan_write.specs.Writing.{WritesPlan};

use answer::Refusal;
use table::TABLE_WORDS;

// The least output that a plan is written to.
pub const PLAN_ROOM: usize = 1400;

// Writes the file of a table to the front of out.
pub fn write_plan(table: &[u64; TABLE_WORDS], out: &mut [u8]) -> Result<usize, Refusal>
    ensures { WritesPlan table.now out.old result out.new }
{
    if out.len() < PLAN_ROOM {
        return Err(Refusal::NoRoom);
    }
    table::table_fault(table)?;
    Ok(put_plan(out, table))
}

// The file of a sound table.
fn put_plan(out: &mut [u8], w: &[u64]) -> usize
    requires table_words_in_bounds { table_words ≤ length w.now }
    requires sound_and_room { (sound_templates (templates_of w.now) ≡ true) × (plan_room ≤ length out.old) }
    ensures { Put (plan_bytes (templates_of w.now)) 0 out.old result out.new }
{
    let count = put_head(out);
    let first = put_count(out, count, w[0] as usize);
    put_templates(out, first, w)
}

// Mark and version.
fn put_head(out: &mut [u8]) -> usize
    requires { plan_room ≤ length out.old }
    ensures { Put (mark ++ version) 0 out.old result out.new }
{
    let mark = b"VAN";
    let version = output::put_bytes(out, 0, mark);
    let low = output::put_byte(out, version, 0);
    output::put_byte(out, low, 1)
}

// A count as one byte.
fn put_count(out: &mut [u8], at: usize, n: usize) -> usize
    requires { (n < 256) × (at < length out.old) }
    ensures { Put (n ∷ []) at out.old result out.new }
{
    output::put_byte(out, at, n as u8)
}

fn put_templates(out: &mut [u8], at: usize, w: &[u64]) -> usize
    requires table_words_in_bounds { table_words ≤ length w.now }
    requires usable { Usable w.now }
    requires room { at + length (templates_bytes (templates_of w.now)) ≤ length out.old }
    ensures { Put (templates_bytes (templates_of w.now)) at out.old result out.new }
{
    let n = w[0] as usize;
    let mut next = at;
    for i in 0..n {
        next = template_file::put_template(out, next, table::template_at(w, i));
    }
    next
}
