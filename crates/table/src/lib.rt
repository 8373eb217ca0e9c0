// Header templates (document 01, "Templates and the plan file"): in words that a host lends, judged, and read from a plan file.
// A template says which bytes of a packet are always the same, and which checksum the far end completes. Definitions speak of lists of
// templates; the machine has their words, and nothing in between. `specs/Words.antt` says which word is what.
// Reading a file refuses, left to right: a file that is cut or too long (22), a wrong mark (20) or version (21), a number that is not in its
// shortest form (24), what breaks a rule (23, and 25 for Context IDs and the count of templates).
#![tactic(auto)]

mod judge; // judge.rt: the first fault of the templates of a table
mod reading; // reading.rt: a plan file read into words
mod rules; // rules.rt: the rules of a Context ID, a segment and a checksum
mod template; // template.rt: a template that was judged

ghost use Rattle.std.specs.Prelude.{◌≡◌, ◌<◌, ◌≤◌, length};
ghost use Rattle.table.specs.Limits.{max_segments, static_limit};
ghost use Rattle.table.specs.Words.{template_words, head_of, segment_at, byte_at, field_under};
ghost use Rattle.table.specs.Sound.{UsableTemplate};

pub use judge::{table_fault, table_sound};
pub use reading::read_plan;
pub use rules::{clear_of, id_rule, segment_rule, sum_rule};
pub use template::{Template, template_at};

pub const MAX_TEMPLATES: usize = 8;

pub const MAX_SEGMENTS: usize = 8;

// Static bytes lie within the first 128 of a packet.
pub const STATIC_LIMIT: usize = 128;

// The words of a template: a head, two for each segment, an image of a packet's first bytes.
pub const HEAD_WORDS: usize = 5;

pub const WORDS_PER_SEGMENT: usize = 2;

pub const IMAGE_AT: usize = HEAD_WORDS + MAX_SEGMENTS * WORDS_PER_SEGMENT;

pub const TEMPLATE_WORDS: usize = IMAGE_AT + STATIC_LIMIT;

// The words of a table: the count of templates, then the templates.
pub const TABLE_WORDS: usize = 1 + MAX_TEMPLATES * TEMPLATE_WORDS;

// A Context ID (RFC 9298, section 4): no Request ID can stand in its place.
#[repr(C)]
#[derive(Clone, Copy)]
pub struct ContextId(pub u64);

#[repr(C)]
#[derive(Clone, Copy)]
pub struct Segment {
    pub offset: usize,
    pub length: usize,
}

// Where the field of a checksum stands, and where its sum starts.
#[derive(Clone, Copy)]
pub struct Checksum {
    pub field: usize,
    pub start: usize,
}

// What a template says beside its segments and static bytes.
#[derive(Clone, Copy)]
pub struct Head {
    pub id: ContextId,
    pub count: usize,
    pub checksum: Option<Checksum>,
}

// The head of the template whose words are t.
pub fn head_of(t: &[u64]) -> Head
    requires { template_words ≤ length t.now }
    ensures { result ≡ head_of t.now }
{
    let id = ContextId(t[0]);
    let count = t[1] as usize;
    let flag = t[2];
    let field = field_under(flag, t[3] as usize);
    let start = t[4] as usize;
    let checksum = (flag != 0).then_some(Checksum { field, start });
    Head {
        id,
        count,
        checksum,
    }
}

// The head of a template that was judged: its flag needs no second test.
pub fn judged_head(t: &[u64]) -> Head
    requires template_words_in_bounds { template_words ≤ length t.now }
    requires usable_template { UsableTemplate t.now }
    ensures { result ≡ head_of t.now }
{
    let id = ContextId(t[0]);
    let count = t[1] as usize;
    let field = t[3] as usize;
    let start = t[4] as usize;
    let checksum = (t[2] != 0).then_some(Checksum { field, start });
    Head {
        id,
        count,
        checksum,
    }
}

// A flag is 0 or 1: under any other the field is 0, which breaks the rule of a checksum.
fn field_under(flag: u64, field: usize) -> usize
    ensures { result ≡ field_under flag field }
{
    if 1 < flag { 0 } else { field }
}

// Its segment j.
pub fn segment_at(t: &[u64], j: usize) -> Segment
    requires template_words_in_bounds { template_words ≤ length t.now }
    requires j_lt_max_segments { j < max_segments }
    ensures { result ≡ segment_at t.now j }
{
    let at = HEAD_WORDS + j * WORDS_PER_SEGMENT;
    let offset = t[at] as usize;
    let length = t[at + 1] as usize;
    Segment { offset, length }
}

// Its static byte of position p, judged or not.
pub fn byte_at(t: &[u64], p: usize) -> u8
    requires template_words_in_bounds { template_words ≤ length t.now }
    requires p_lt_static_limit { p < static_limit }
    ensures { result ≡ byte_at t.now p }
{
    (t[IMAGE_AT + p] % 256) as u8
}
