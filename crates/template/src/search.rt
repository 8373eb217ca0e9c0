// The search in a table.
ghost use Rattle.std.specs.Prelude.{◌≡◌, ◌≤◌, ◌+◌, length};
ghost use Rattle.inet.specs.Packet.{lowered};
ghost use Rattle.table.specs.Limits.{static_limit};
ghost use Rattle.table.specs.Words.{table_words, count_in, templates_of};
ghost use Rattle.table.specs.Sound.{Usable};
ghost use Rattle.template.specs.Fits.{with_id};
ghost use Rattle.template.specs.Usable.{Fronted, Chosen, Listed, holds_at};

use super::Fit;
use super::checksum::sum_fits;
use inet::transport::seed;
use table::{ContextId, Template, template_at};

// The first template that fits the packet as it goes on: of ascending Context IDs the lowest. The search stops there. Segments are compared with
// the front; lowering changes no byte that the checksum counts, so that is tested of the packet as it came.
pub fn find(table: &[u64], front: &[u8], packet: &[u8]) -> Option<Fit>
    requires table_words_in_bounds { table_words ≤ length table.now }
    requires usable { Usable table.now }
    requires fronted { Fronted front.now packet.now }
    ensures { Chosen table.now (lowered packet.now) result }
{
    let count = count_of(table);
    'templates: for i in 0..count {
        let t = template_at(table, i);
        let head = t.head();
        let n = head.count;
        'segments: for j in 0..n {
            let s = t.segment(j);
            let mut k = s.offset;
            let stop = k + s.length;
            if packet.len() < stop {
                continue 'templates;
            }
            // four a turn, as measured: with one byte a turn, half of a turn would be counting. A `while`: what is left begins where it stops
            'fours: while k + 4 <= stop {
                if !holds_four(front, t, k) {
                    continue 'templates;
                }
                k += 4;
            }
            'bytes: for b in k..stop {
                if front[b] != t.byte(b) {
                    continue 'templates;
                }
            }
        }
        let mut first: u64 = 0;
        if let Some(sum) = head.checksum {
            if packet.len() < sum.field + 2 {
                continue 'templates;
            }
            first = seed(packet, sum.start);
            if !sum_fits(packet, sum.field, sum.start, first) {
                continue 'templates;
            }
        }
        return Some(Fit {
            place: i,
            seed: first,
        });
    }
    None
}

// The template with a Context ID.
pub fn find_id(table: &[u64], id: ContextId) -> Option<usize>
    requires table_words_in_bounds { table_words ≤ length table.now }
    requires usable { Usable table.now }
    ensures { Listed table.now (with_id id.0 (templates_of table.now)) result }
{
    let count = count_of(table);
    for i in 0..count {
        let head = template_at(table, i).head();
        if head.id.0 == id.0 {
            return Some(i);
        }
    }
    None
}

// How many templates there are.
fn count_of(table: &[u64]) -> usize
    requires { table_words ≤ length table.now }
    ensures { result ≡ count_in table.now }
{
    table[0] as usize
}

// Whether the four bytes at k are the static bytes of these positions.
fn holds_four(front: &[u8], t: Template<'_>, k: usize) -> bool
    requires { (k + 4 ≤ static_limit) × (k + 4 ≤ length front.now) }
    ensures { result ≡ holds_at t.entry.words.now front.now k (k + 4) }
{
    front[k] == t.byte(k)
        && front[k + 1] == t.byte(k + 1)
        && front[k + 2] == t.byte(k + 2)
        && front[k + 3] == t.byte(k + 3)
}
