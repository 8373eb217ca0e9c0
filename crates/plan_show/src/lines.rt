// The lines of a plan file: `plan 1 templates N` and then `ID segments S static B checksum F P`, or `.. checksum none`, for each template;
// or `refused NUMBER`. `specs/Lines.antt` says which bytes they are.
ghost use Rattle.std.specs.Prelude.{◌≡◌, true, ◌+◌, ◌≤◌, length};
ghost use Rattle.output.specs.Places.{Put};
ghost use Rattle.table.specs.Words.{table_words, template_of, templates_of};
ghost use Rattle.table.specs.Rules.{sound_templates};
ghost use Rattle.table.specs.Sound.{Usable};
ghost use Rattle.plan_show.specs.Lines.{sum_text, template_line, template_lines, table_lines, plan_lines};

use crate::text::{put_decimal, put_labelled, put_last};
use table::{MAX_TEMPLATES, TABLE_WORDS, Template, template_at};

// The most digits of a Context ID, of a count, and of an offset or a size.
const ID_DIGITS: usize = 19;

const COUNT_DIGITS: usize = 1;

const OFFSET_DIGITS: usize = 3;

// The most that the first line takes: its label of 17, the count and the end of the line.
const FIRST_ROOM: usize = 17 + COUNT_DIGITS + 1;

// The labels of the line of a template take 10, 8, 10 and 1.
const LINE_LABELS: usize = 10 + 8 + 10 + 1;

// The most that the line takes: five numbers, their labels and the end of the line.
const LINE_ROOM: usize = ID_DIGITS + COUNT_DIGITS + 3 * OFFSET_DIGITS + LINE_LABELS + 1;

pub(crate) const LINES_ROOM: usize = FIRST_ROOM + MAX_TEMPLATES * LINE_ROOM;

// Puts the lines of a file to the front of out, and answers how many bytes they are.
pub(crate) fn plan_lines(file: &[u8], out: &mut [u8; LINES_ROOM]) -> usize
    ensures { Put (plan_lines file.now) 0 out.old result out.new }
{
    let mut words = [0u64; TABLE_WORDS];
    match table::read_plan(file, &mut words) {
        Ok(()) => put_table(out, &words),
        Err(why) => put_last(out, 0, b"refused ", why.number() as u64),
    }
}

// The lines of a sound table.
fn put_table(out: &mut [u8; LINES_ROOM], w: &[u64; TABLE_WORDS]) -> usize
    requires { sound_templates (templates_of w.now) ≡ true }
    ensures { Put (table_lines (templates_of w.now)) 0 out.old result out.new }
{
    let first = put_last(out, 0, b"plan 1 templates ", w[0]);
    put_templates(out, first, w)
}

fn put_templates(out: &mut [u8], at: usize, w: &[u64]) -> usize
    requires table_words_in_bounds { table_words ≤ length w.now }
    requires usable { Usable w.now }
    requires w_in_bounds { at + length (template_lines (templates_of w.now)) ≤ length out.old }
    ensures { Put (template_lines (templates_of w.now)) at out.old result out.new }
{
    let n = w[0] as usize;
    let mut next = at;
    for i in 0..n {
        next = put_template(out, next, template_at(w, i));
    }
    next
}

// The line of a template.
fn put_template(out: &mut [u8], at: usize, t: Template<'_>) -> usize
    requires { at + length (template_line (template_of t.words.now)) ≤ length out.old }
    ensures { Put (template_line (template_of t.entry.words.now)) at out.old result out.new }
{
    let head = t.head();
    let size = t.static_size();
    let segments = put_decimal(out, at, head.id.0);
    let bytes = put_labelled(out, segments, b" segments ", head.count as u64);
    let checksum = put_labelled(out, bytes, b" static ", size as u64);
    put_checksum(out, checksum, t)
}

// Field and start, or none; and the end of the line.
fn put_checksum(out: &mut [u8], at: usize, t: Template<'_>) -> usize
    requires { at + length (sum_text (template_of t.words.now).sum) ≤ length out.old }
    ensures { Put (sum_text (template_of t.entry.words.now).sum) at out.old result out.new }
{
    match t.head().checksum {
        Some(sum) => {
            let start = put_labelled(out, at, b" checksum ", sum.field as u64);
            put_last(out, start, b" ", sum.start as u64)
        }
        None => output::put_bytes(out, at, b" checksum none\n"),
    }
}
