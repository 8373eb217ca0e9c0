// Words in a packet, high byte first.
ghost use Rattle.std.specs.Prelude.{◌≡◌, ◌≤◌, ◌<◌, ◌+◌, length};
ghost use Rattle.inet.specs.Packet.{put16};
ghost use Rattle.inet.specs.Transport.{field_is};

use super::sum::word;

// Puts a word at i. By two stores, as `put16` has them: a copy of `to_be_bytes` is no plainer, and its proof speaks of a part that is put back.
pub fn put_word(p: &mut [u8], i: usize, v: u64)
    requires { (i + 1 < length p.old) × (v < 65536) }
    ensures { p.new ≡ put16 p.old i v }
{
    p[i] = (v / 256) as u8;
    p[i + 1] = (v % 256) as u8;
}

// Whether the two bytes at field are those of v.
pub fn field_is(packet: &[u8], field: usize, v: u64) -> bool
    requires { field + 2 ≤ length packet.now }
    ensures { result ≡ field_is field v packet.now }
{
    word(packet[field], packet[field + 1]) == v
}
