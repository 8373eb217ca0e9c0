// The bytes of a packet outside a template's segments, and the packet rebuilt from them.
ghost use Rattle.std.specs.Prelude.{◌≡◌, ◌+◌, ◌-◌, ◌≤◌, ◌<◌, ◌++◌, length, take, drop};
ghost use Rattle.output.specs.Places.{Put};
ghost use Rattle.table.specs.Limits.{static_limit};
ghost use Rattle.table.specs.Words.{template_of, window};
ghost use Rattle.template.specs.Pieces.{strip, weave, last_end};
ghost use Rattle.template.specs.Datagrams.{rebuilt};
ghost use Rattle.template.specs.Usable.{pieces_of, Shortenable, reaches_at, Rebuildable, Weavable, Completable, Begins, Continues};
ghost use Rattle.inet.specs.Transport.{set_field, finish};

use inet::field::put_word;
use inet::transport::finish;
use output::put_bytes;
use table::Template;

// Writes the bytes outside the segments of a packet, whose front has all segments, to out from the place at on, and returns the place behind them.
pub fn shorten(t: Template<'_>, front: &[u8], tail: &[u8], out: &mut [u8], at: usize) -> usize
    requires { Shortenable t.words.now front.now tail.now out.old at }
    ensures { Put (strip 0 (pieces_of t.entry.words.now) (front.now ++ tail.now)) at out.old result out.new }
{
    let n = t.head().count;
    let mut pos: usize = 0;
    let mut next = at;
    for j in 0..n {
        let s = t.segment(j);
        let off = s.offset;
        next = copy_range(front, pos, off, out, next);
        pos = off + s.length;
    }
    let end = copy_range(front, pos, front.len(), out, next);
    put_bytes(out, end, tail)
}

// Copies src[from..to] to out from the place at on, and returns the place behind it.
fn copy_range(src: &[u8], from: usize, to: usize, out: &mut [u8], at: usize) -> usize
    requires { (from ≤ to) × (to ≤ length src.now) × (at + (to - from) ≤ length out.old) }
    ensures { Put (take (to - from) (drop from src.now)) at out.old result out.new }
{
    put_bytes(out, at, &src[from..to])
}

// Whether a packet of so many bytes reaches the last segment's end and the field's end.
pub fn reaches(t: Template<'_>, size: usize) -> bool
    ensures { result ≡ reaches_at (template_of t.entry.words.now) size }
{
    if size < last_end(t) {
        return false;
    }
    match t.head().checksum {
        Some(sum) => sum.field + 2 <= size,
        None => true,
    }
}

// Where the last segment ends.
fn last_end(t: Template<'_>) -> usize
    ensures { result ≡ last_end 0 (pieces_of t.entry.words.now) }
{
    let n = t.head().count;
    if n == 0 {
        return 0;
    }
    let s = t.segment(n - 1);
    s.offset + s.length
}

// Builds the front of the packet that near and far together stand for, at the front of image, completes its sum, and returns the front's length: it has all
// that the template says. The packet goes on with far, of which only the sum is looked at.
pub fn rebuild<'a>(t: Template<'_>, near: &'a [u8], far: &'a [u8], image: &mut [u8]) -> usize
    requires { Rebuildable t.words.now near.now far.now (length image.old) }
    ensures { Continues (rebuilt (template_of t.entry.words.now) (near.now ++ far.now)) far.now image.new result }
{
    let n = weave_into(t, near, image);
    if let Some(sum) = t.head().checksum {
        complete(image, n, far, sum.field, sum.start);
    }
    n
}

// Completes the sum of the packet that the first n bytes of image and far are, which has the seed in its field.
fn complete(image: &mut [u8], n: usize, far: &[u8], field: usize, start: usize)
    requires { Completable field start n far.now image.old }
    ensures { image.new ≡ set_field field (finish start (take n image.old ++ far.now)) image.old }
{
    let sum = finish(&image[..n], far, start);
    put_word(image, field, sum);
}

// Puts the segments' bytes and the others together. Both stand at their places: pos is the end of what is written.
fn weave_into(t: Template<'_>, body: &[u8], image: &mut [u8]) -> usize
    requires { Weavable t.words.now body.now image.old }
    ensures { Begins (weave 0 (pieces_of t.entry.words.now) body.now) image.new result }
{
    let n = t.head().count;
    let mut pos: usize = 0;
    let mut at: usize = 0;
    for j in 0..n {
        let s = t.segment(j);
        let off = s.offset;
        let end = off + s.length;
        let to = at + (off - pos);
        copy_range(body, at, to, image, pos);
        put_static(t, off, end, image);
        pos = end;
        at = to;
    }
    put_bytes(image, pos, &body[at..])
}

// Puts the static bytes of the positions from..to of a template at their places in image.
fn put_static(t: Template<'_>, from: usize, to: usize, image: &mut [u8])
    requires { (from ≤ to) × (to ≤ static_limit) × (to ≤ length image.old) }
    ensures { Put (window t.entry.words.now from (to - from)) from image.old to image.new }
{
    for k in from..to {
        image[k] = t.byte(k);
    }
}
