// The bytes of one template, from its words: Context ID, segments with their static bytes, checksum.
ghost use Rattle.std.specs.Prelude.{◌+◌, ◌≤◌, length};
ghost use Rattle.output.specs.Places.{Put};
ghost use Rattle.table.specs.Limits.{static_limit};
ghost use Rattle.table.specs.Words.{window, piece_of, template_of};
ghost use Rattle.table.specs.File.{piece_bytes, pieces_bytes, sum_bytes, template_bytes};

use table::{Segment, Template};

pub(crate) fn put_template(out: &mut [u8], at: usize, t: Template<'_>) -> usize
    requires { at + length (template_bytes (template_of t.words.now)) ≤ length out.old }
    ensures { Put (template_bytes (template_of t.entry.words.now)) at out.old result out.new }
{
    let head = t.head();
    let count = varint::put_number(out, at, head.id.0);
    let first = crate::put_count(out, count, head.count);
    let flag = put_segments(out, first, t);
    put_checksum(out, flag, t)
}

fn put_segments(out: &mut [u8], at: usize, t: Template<'_>) -> usize
    requires { at + length (pieces_bytes (template_of t.words.now).pieces) ≤ length out.old }
    ensures { Put (pieces_bytes (template_of t.entry.words.now).pieces) at out.old result out.new }
{
    let head = t.head();
    let n = head.count;
    let mut next = at;
    for j in 0..n {
        let s = t.segment(j);
        next = put_segment(out, next, t, s);
    }
    next
}

// Offset, length, static bytes.
fn put_segment(out: &mut [u8], at: usize, t: Template<'_>, segment: Segment) -> usize
    requires segment_in_static { segment.offset + segment.length ≤ static_limit }
    requires room { at + length (piece_bytes (piece_of t.words.now segment)) ≤ length out.old }
    ensures { Put (piece_bytes (piece_of t.entry.words.now segment)) at out.old result out.new }
{
    let offset = segment.offset;
    let size = segment.length;
    let length = varint::put_number(out, at, offset as u64);
    let bytes = varint::put_number(out, length, size as u64);
    put_static(out, bytes, t, offset, size)
}

// The static bytes of `size` positions from an offset on.
fn put_static(out: &mut [u8], at: usize, t: Template<'_>, offset: usize, size: usize) -> usize
    requires { (offset + size ≤ static_limit) × (at + size ≤ length out.old) }
    ensures { Put (window t.entry.words.now offset size) at out.old result out.new }
{
    let mut next = at;
    for i in 0..size {
        let b = t.byte(offset + i);
        next = output::put_byte(out, next, b);
    }
    next
}

// Flag 0; or flag 1, the field's offset and the offset where the sum starts.
fn put_checksum(out: &mut [u8], at: usize, t: Template<'_>) -> usize
    requires { at + length (sum_bytes (template_of t.words.now).sum) ≤ length out.old }
    ensures { Put (sum_bytes (template_of t.entry.words.now).sum) at out.old result out.new }
{
    match t.head().checksum {
        Some(sum) => {
            let field = output::put_byte(out, at, 1);
            let start = varint::put_number(out, field, sum.field as u64);
            varint::put_number(out, start, sum.start as u64)
        }
        None => output::put_byte(out, at, 0),
    }
}
