// The value of a list: how long it is, and its bytes.
ghost use Rattle.std.specs.Prelude.{◌≡◌, true, false, ◌+◌, ◌*◌, ◌≤◌, length};
ghost use Rattle.octets.specs.Scan.{from, all_of};
ghost use Rattle.capsule.specs.Elements.{written};
ghost use Rattle.output.specs.Places.{Put};

use crate::element::Element;

// How many bytes the first n elements take.
pub(crate) fn size<T: Element>(w: &[u64], n: usize) -> usize
    requires words_in_bounds { T.words ≤ length w.now }
    requires n_le_limit { n ≤ T.LIMIT }
    ensures { (result ≡ length (written (T.format false) (from (T.at w.now) 0 n))) × (result ≤ T.most * n) }
{
    let mut size: usize = 0;
    for i in 0..n {
        let e = T::stored(w, i);
        size += e.size();
    }
    size
}

// Puts the first n elements.
pub(crate) fn put<T: Element>(out: &mut [u8], at: usize, w: &[u64], n: usize) -> usize
    requires words_in_bounds { T.words ≤ length w.now }
    requires n_le_limit { n ≤ T.LIMIT }
    requires sound { all_of (T.format false).sound (from (T.at w.now) 0 n) ≡ true }
    requires room { at + T.most * n ≤ length out.old }
    ensures { Put (written (T.format false) (from (T.at w.now) 0 n)) at out.old result out.new }
{
    let mut next = at;
    for i in 0..n {
        let e = T::stored(w, i);
        next = e.put(out, next);
    }
    next
}
