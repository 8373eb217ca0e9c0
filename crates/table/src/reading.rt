// A plan file read left to right, into words that are 0. Each function finds something at a place of the file and hands back the place behind it,
// or the refusal.
ghost use Rattle.std.specs.Prelude.{◌≡◌, ◌+◌, ◌≤◌, length, drop, replicate};
ghost use Rattle.octets.specs.Parts.{part, with_part};
ghost use Rattle.octets.specs.Scan.{from};
ghost use Rattle.table.specs.Limits.{max_segments, max_templates};
ghost use Rattle.table.specs.Rules.{all_clear};
ghost use Rattle.table.specs.Words.{template_words, table_words, segment_at, sum_of};
ghost use Rattle.table.specs.File.{number_in, two_in, piece_in, pieces_in, sum_in, body_in, template_in, templates_in, ending, and_then};
ghost use Rattle.table.specs.Load.{Loads};
ghost use Rattle.table.specs.Found.{NumberFound, TwoFound, PieceFound, PiecesFound, SumFound, BodyFound, TemplateFound, TemplatesFound, HeadFound};
ghost use Rattle.table.specs.Found.{pair_in, headed};

use crate::{
    Checksum, HEAD_WORDS, IMAGE_AT, MAX_SEGMENTS, MAX_TEMPLATES, TABLE_WORDS, TEMPLATE_WORDS,
    WORDS_PER_SEGMENT, rules,
};
use answer::Refusal;

// A number in its shortest form.
#[derive(Clone, Copy)]
pub struct NumberAt {
    pub value: u64,
    pub next: usize,
}

// Two numbers, one behind the other.
#[derive(Clone, Copy)]
pub struct TwoAt {
    pub first: usize,
    pub second: usize,
    pub next: usize,
}

// A segment, whose static bytes stand in the file from `start` on.
#[derive(Clone, Copy)]
pub struct SegmentAt {
    pub offset: usize,
    pub size: usize,
    pub start: usize,
}

// The checksum of a template, if it has one.
#[derive(Clone, Copy)]
pub struct ChecksumAt {
    pub checksum: Option<Checksum>,
    pub next: usize,
}

// A template, whose words are stored.
#[derive(Clone, Copy)]
pub struct TemplateAt {
    pub id: u64,
    pub next: usize,
}

// Reads a plan file into a table. A refusal leaves the table as it was.
pub fn read_plan(file: &[u8], table: &mut [u64; TABLE_WORDS]) -> Result<(), Refusal>
    ensures { Loads file.now table.old result table.new }
{
    head_fault(file)?;
    let mut scratch = [0u64; TABLE_WORDS];
    read_templates(file, file[5] as usize, &mut scratch)?;
    *table = scratch;
    Ok(())
}

// The fault of the mark, the version or the count of templates.
fn head_fault(bytes: &[u8]) -> Result<(), Refusal>
    ensures { HeadFound bytes.now result }
{
    if bytes.len() < 3 {
        return Err(Refusal::PlanCut);
    }
    if !bytes.starts_with(b"VAN") {
        return Err(Refusal::PlanMark);
    }
    if bytes.len() < 5 {
        return Err(Refusal::PlanCut);
    }
    if bytes[3] != 0 {
        return Err(Refusal::PlanVersion);
    }
    if bytes[4] != 1 {
        return Err(Refusal::PlanVersion);
    }
    if bytes.len() < 6 {
        return Err(Refusal::PlanCut);
    }
    if MAX_TEMPLATES < bytes[5] as usize {
        return Err(Refusal::PlanContext);
    }
    Ok(())
}

// The n templates behind the count, and the end of the file.
fn read_templates(bytes: &[u8], n: usize, table: &mut [u64]) -> Result<(), Refusal>
    requires table_len { length table.old ≡ table_words }
    requires table_blank { table.old ≡ replicate table_words 0 }
    requires in_bounds { (6 ≤ length bytes.now) × (n ≤ max_templates) }
    ensures { TemplatesFound (and_then (templates_in n 0 (drop 6 bytes.now)) ending) result table.new }
{
    let mut previous: u64 = 0;
    let mut next: usize = 6;
    for i in 0..n {
        let from = 1 + i * TEMPLATE_WORDS;
        let end = from + TEMPLATE_WORDS;
        let read = read_template(bytes, next, previous, &mut table[from..end])?;
        previous = read.id;
        next = read.next;
    }
    if next < bytes.len() {
        return Err(Refusal::PlanCut);
    }
    table[0] = n as u64;
    Ok(())
}

// The template at a place, behind one of the ID `previous`, or 0.
fn read_template(
    bytes: &[u8],
    at: usize,
    previous: u64,
    t: &mut [u64],
) -> Result<TemplateAt, Refusal>
    requires t_len { length t.old ≡ template_words }
    requires t_blank { t.old ≡ replicate template_words 0 }
    requires at_in_bounds { at ≤ length bytes.now }
    ensures { TemplateFound bytes.now (template_in previous (drop at bytes.now)) result t.new }
{
    let number = number_at(bytes, at)?;
    if !rules::id_rule(previous, number.value) {
        return Err(Refusal::PlanContext);
    }
    let next = read_body(bytes, number.next, number.value, t)?;
    Ok(TemplateAt {
        id: number.value,
        next,
    })
}

// What follows an ID: the count of segments, the segments, the checksum.
fn read_body(bytes: &[u8], at: usize, id: u64, t: &mut [u64]) -> Result<usize, Refusal>
    requires t_len { length t.old ≡ template_words }
    requires t_blank { t.old ≡ replicate template_words 0 }
    requires at_in_bounds { at ≤ length bytes.now }
    ensures { BodyFound bytes.now (body_in id (drop at bytes.now)) result t.new }
{
    if bytes.len() <= at {
        return Err(Refusal::PlanCut);
    }
    let n = bytes[at] as usize;
    if MAX_SEGMENTS < n {
        return Err(Refusal::PlanRule);
    }
    let behind = read_segments(bytes, at + 1, n, t)?;
    let sum = read_checksum(bytes, behind, t, n)?;
    put_head(t, id, n, sum.checksum);
    Ok(sum.next)
}

// The head of a template of this ID, of n segments and with this checksum.
fn put_head(t: &mut [u64], id: u64, n: usize, checksum: Option<Checksum>)
    requires { template_words ≤ length t.old }
    ensures { t.new ≡ headed id n (sum_of checksum) t.old }
{
    t[0] = id;
    t[1] = n as u64;
    match checksum {
        Some(Checksum { field, start }) => {
            t[2] = 1;
            t[3] = field as u64;
            t[4] = start as u64;
        }
        None => {
            t[2] = 0;
            t[3] = 0;
            t[4] = 0;
        }
    }
}

// The n segments at a place, with their bytes.
fn read_segments(bytes: &[u8], at: usize, n: usize, t: &mut [u64]) -> Result<usize, Refusal>
    requires t_len { length t.old ≡ template_words }
    requires t_blank { t.old ≡ replicate template_words 0 }
    requires at_in_bounds { (at ≤ length bytes.now) × (n ≤ max_segments) }
    ensures { PiecesFound bytes.now (pieces_in n 0 (drop at bytes.now)) result t.new }
{
    let mut ended: usize = 0;
    let mut next = at;
    for j in 0..n {
        let read = read_segment(bytes, next, ended)?;
        let place = HEAD_WORDS + j * WORDS_PER_SEGMENT;
        t[place] = read.offset as u64;
        t[place + 1] = read.size as u64;
        paste(bytes, read.start, read.size, t, IMAGE_AT + read.offset);
        ended = read.offset + read.size;
        next = read.start + read.size;
    }
    Ok(next)
}

// `size` bytes of the file from `start` on, put at a place, a byte in each word.
fn paste(bytes: &[u8], start: usize, size: usize, t: &mut [u64], place: usize)
    requires t_has_room { place + size ≤ length t.old }
    requires bytes_reach { start + size ≤ length bytes.now }
    ensures { t.new ≡ with_part t.old place (place + size) (part bytes.now start size) }
{
    for i in 0..size {
        t[place + i] = u64::from(bytes[start + i]);
    }
}

// The segment at a place, behind one that ended there or 0.
fn read_segment(bytes: &[u8], at: usize, ended: usize) -> Result<SegmentAt, Refusal>
    requires { at ≤ length bytes.now }
    ensures { PieceFound bytes.now (piece_in ended (drop at bytes.now)) result }
{
    let two = two_at(bytes, at)?;
    if !rules::segment_rule(ended, two.first, two.second) {
        return Err(Refusal::PlanRule);
    }
    if bytes.len() - two.next < two.second {
        return Err(Refusal::PlanCut);
    }
    Ok(SegmentAt {
        offset: two.first,
        size: two.second,
        start: two.next,
    })
}

// The checksum at a place, behind the first n segments.
fn read_checksum(bytes: &[u8], at: usize, t: &[u64], n: usize) -> Result<ChecksumAt, Refusal>
    requires template_words_in_bounds { template_words ≤ length t.now }
    requires at_in_bounds { (at ≤ length bytes.now) × (n ≤ max_segments) }
    ensures { SumFound bytes.now (sum_in (from (segment_at t.now) 0 n) (drop at bytes.now)) result }
{
    if bytes.len() <= at {
        return Err(Refusal::PlanCut);
    }
    let flag = bytes[at];
    if flag == 0 {
        if n == 0 {
            return Err(Refusal::PlanRule);
        }
        return Ok(ChecksumAt {
            checksum: None,
            next: at + 1,
        });
    }
    if flag != 1 {
        return Err(Refusal::PlanRule);
    }
    read_pair(bytes, at + 1, t, n)
}

// The field offset and the start offset at a place.
fn read_pair(bytes: &[u8], at: usize, t: &[u64], n: usize) -> Result<ChecksumAt, Refusal>
    requires template_words_in_bounds { template_words ≤ length t.now }
    requires at_in_bounds { (at ≤ length bytes.now) × (n ≤ max_segments) }
    ensures { SumFound bytes.now (pair_in (from (segment_at t.now) 0 n) (drop at bytes.now)) result }
{
    let two = two_at(bytes, at)?;
    let field = two.first;
    let start = two.second;
    if !rules::sum_rule(field, start) {
        return Err(Refusal::PlanRule);
    }
    if !all_clear(field, t, n) {
        return Err(Refusal::PlanRule);
    }
    Ok(ChecksumAt {
        checksum: Some(Checksum { field, start }),
        next: two.next,
    })
}

// The two bytes of a field lie outside the first n segments.
fn all_clear(field: usize, t: &[u64], n: usize) -> bool
    requires template_words_in_bounds { template_words ≤ length t.now }
    requires n_le_max_segments { n ≤ max_segments }
    ensures { result ≡ all_clear field (from (segment_at t.now) 0 n) }
{
    for j in 0..n {
        let s = crate::segment_at(t, j);
        if !rules::clear_of(field, s.offset, s.length) {
            return false;
        }
    }
    true
}

// Two numbers at a place.
fn two_at(bytes: &[u8], at: usize) -> Result<TwoAt, Refusal>
    requires { at ≤ length bytes.now }
    ensures { TwoFound bytes.now (two_in (drop at bytes.now)) result }
{
    let one = number_at(bytes, at)?;
    let two = number_at(bytes, one.next)?;
    Ok(TwoAt {
        first: one.value as usize,
        second: two.value as usize,
        next: two.next,
    })
}

// The number at a place.
fn number_at(bytes: &[u8], at: usize) -> Result<NumberAt, Refusal>
    requires { at ≤ length bytes.now }
    ensures { NumberFound bytes.now (number_in (drop at bytes.now)) result }
{
    let number = varint::read(&bytes[at..]).ok_or(Refusal::PlanCut)?;
    if !varint::is_shortest(number.value, number.size) {
        return Err(Refusal::PlanNotShortest);
    }
    Ok(NumberAt {
        value: number.value,
        next: at + number.size,
    })
}
