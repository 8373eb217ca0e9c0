// The checksum of a template: whether a packet's own is the right one, and the seed in its place.
ghost use Rattle.std.specs.Prelude.{◌≡◌, ◌≤◌, ◌+◌, length};
ghost use Rattle.inet.specs.Transport.{seed, completion};
ghost use Rattle.table.specs.Templates.{sum_at};
ghost use Rattle.table.specs.Words.{template_of};
ghost use Rattle.template.specs.Fits.{fits_sum};
ghost use Rattle.template.specs.Usable.{Testable, SumPlace, Fillable, filled};

use inet::field::{field_is, put_word};
use inet::packet::{byte_at, protocol_byte};
use inet::sum::{folded, sum_bytes, word};
use table::Template;

// Whether the field holds the right checksum. The seed is handed in, since what is sent holds it too.
pub(crate) fn sum_fits(packet: &[u8], field: usize, start: usize, first: u64) -> bool
    requires testable { Testable packet.now }
    requires sum_place { SumPlace field start }
    requires field_and_seed { (field + 2 ≤ length packet.now) × (first ≡ seed start packet.now) }
    ensures { result ≡ fits_sum (sum_at field start) packet.now }
{
    let v = completion(packet, field, start, first);
    field_is(packet, field, v)
}

// Puts the seed into the field of a template, where it has a checksum: the field lies in a packet's front.
pub fn put_seed(t: Template<'_>, first: u64, front: &mut [u8])
    requires { Fillable t.words.now first front.old }
    ensures { front.new ≡ filled (template_of t.entry.words.now).sum first front.old }
{
    if let Some(sum) = t.head().checksum {
        put_word(front, sum.field, first);
    }
}

// The right checksum: the words from start on, with the seed counted in place of what stands in the field. UDP sends a 0 as 65535.
fn completion(packet: &[u8], field: usize, start: usize, first: u64) -> u64
    requires testable { Testable packet.now }
    requires sum_place { SumPlace field start }
    requires field_and_seed { (field + 2 ≤ length packet.now) × (first ≡ seed start packet.now) }
    ensures { (result ≡ completion field start packet.now) × (result ≤ 65535) }
{
    let hi = byte_at(packet, field);
    let lo = byte_at(packet, field + 1);
    let own = word(hi, lo);
    let all = sum_bytes(&packet[start..]);
    // 65535 counts as 0 in a sum that folds: so `own` is taken away without asking whether it is in `all`
    let v = 65535 - folded(all + (65535 - own) + first);
    if v == 0 && protocol_byte(packet) == 17 {
        65535
    } else {
        v
    }
}
