// The judge of a table: the first fault of its templates. Counts and offsets may be any numbers, so each is tested before it is used.
ghost use Rattle.std.specs.Prelude.{◌≡◌, ◌≤◌, length};
ghost use Rattle.octets.specs.Scan.{from};
ghost use Rattle.table.specs.Limits.{max_segments};
ghost use Rattle.table.specs.Words.{template_words, table_words, head_of, segment_at, template_of, templates_of};
ghost use Rattle.table.specs.Rules.{template_fault, plan_fault, sound_templates};
ghost use Rattle.table.specs.Tests.{pair_sound, leaves_free, segments_sound};

use crate::template::words_at;
use crate::{Checksum, Head, MAX_SEGMENTS, MAX_TEMPLATES, rules};
use answer::Refusal;

// Whether the templates of a table keep their rules. Where there are none nothing is looked at.
pub fn table_sound(w: &[u64]) -> bool
    requires { table_words ≤ length w.now }
    ensures { result ≡ sound_templates (templates_of w.now) }
{
    w[0] == 0 || table_fault(w).is_ok()
}

// The first fault of the templates of a table, in the order of their file.
pub fn table_fault(w: &[u64]) -> Result<(), Refusal>
    requires { table_words ≤ length w.now }
    ensures { result ≡ plan_fault (templates_of w.now) }
{
    let n = w[0] as usize;
    if MAX_TEMPLATES < n {
        return Err(Refusal::PlanContext);
    }
    let mut previous: u64 = 0;
    for i in 0..n {
        let t = words_at(w, i);
        let head = crate::head_of(t);
        template_fault(t, previous, head)?;
        previous = head.id.0;
    }
    Ok(())
}

// The first fault of a template of this head, behind one of the ID `previous`, or 0.
fn template_fault(t: &[u64], previous: u64, head: Head) -> Result<(), Refusal>
    requires template_words_in_bounds { template_words ≤ length t.now }
    requires head_is_of_t { head ≡ head_of t.now }
    ensures { result ≡ template_fault previous (template_of t.now) }
{
    if !rules::id_rule(previous, head.id.0) {
        return Err(Refusal::PlanContext);
    }
    if MAX_SEGMENTS < head.count {
        return Err(Refusal::PlanRule);
    }
    if !pair_sound(head) {
        return Err(Refusal::PlanRule);
    }
    if !segments_sound(t, head) {
        return Err(Refusal::PlanRule);
    }
    Ok(())
}

// The offsets of a checksum keep their rule; without one there is a segment at least.
fn pair_sound(head: Head) -> bool
    ensures { result ≡ pair_sound head }
{
    match head.checksum {
        Some(sum) => rules::sum_rule(sum.field, sum.start),
        None => head.count != 0,
    }
}

// The segments of a template keep their rule, and leave the field of its checksum free.
fn segments_sound(t: &[u64], head: Head) -> bool
    requires template_words_in_bounds { template_words ≤ length t.now }
    requires count_le_max_segments { head.count ≤ max_segments }
    ensures { result ≡ segments_sound head.checksum 0 (from (segment_at t.now) 0 head.count) }
{
    let mut ended: usize = 0;
    for j in 0..head.count {
        let s = crate::segment_at(t, j);
        if !rules::segment_rule(ended, s.offset, s.length) {
            return false;
        }
        if !leaves_free(head.checksum, s.offset, s.length) {
            return false;
        }
        ended = s.offset + s.length;
    }
    true
}

// A segment leaves the field of a checksum free, where there is one.
fn leaves_free(checksum: Option<Checksum>, offset: usize, size: usize) -> bool
    ensures { result ≡ leaves_free checksum offset size }
{
    match checksum {
        Some(sum) => rules::clear_of(sum.field, offset, size),
        None => true,
    }
}
