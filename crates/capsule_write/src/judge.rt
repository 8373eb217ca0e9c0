// The first fault of a list that is to be written, in the order of reading.
ghost use Rattle.std.specs.Prelude.{◌≡◌, [], ◌≤◌, min, length};
ghost use Rattle.octets.specs.Scan.{from};
ghost use Rattle.lists.specs.Words.{count_of};
ghost use Rattle.capsule.specs.Elements.{judged, count_verdict};
ghost use Rattle.capsule_write.specs.Verdicts.{list_verdict};

use crate::element::Element;
use answer::Refusal;

// Of a list of elements, and then of the count.
pub(crate) fn verdict<T: Element>(w: &[u64], request: bool) -> Result<(), Refusal>
    requires words_in_bounds { T.words ≤ length w.now }
    ensures { result ≡ list_verdict (T.format request) request T.LIMIT (T.at w.now) (count_of w.now) }
{
    let count = w[0];
    let limit = T::LIMIT;
    let n = at_most(count, limit);
    elements_fault::<T>(w, n, request)?;
    count_verdict(request, limit, count)
}

// The smaller of a count and its limit.
fn at_most(count: u64, limit: usize) -> usize
    ensures { result ≡ min count limit }
{
    if (limit as u64) < count {
        return limit;
    }
    count as usize
}

// An empty list where an element is asked for, and a list over its limit.
fn count_verdict(asked: bool, limit: usize, count: u64) -> Result<(), Refusal>
    ensures { result ≡ count_verdict asked limit count }
{
    if count == 0 {
        if asked {
            return Err(Refusal::BadRequestId);
        }
        return Ok(());
    }
    if (limit as u64) < count {
        return Err(Refusal::TooMany);
    }
    Ok(())
}

// Of the first n elements. Two calls, which are compiled apart: in a list that is no request no element is asked what a request asks more.
fn elements_fault<T: Element>(w: &[u64], n: usize, request: bool) -> Result<(), Refusal>
    requires words_in_bounds { T.words ≤ length w.now }
    requires n_le_limit { n ≤ T.LIMIT }
    ensures { result ≡ judged (T.format request) [] (from (T.at w.now) 0 n) }
{
    if request {
        first_fault::<T>(w, n, true)
    } else {
        first_fault::<T>(w, n, false)
    }
}

fn first_fault<T: Element>(w: &[u64], n: usize, request: bool) -> Result<(), Refusal>
    requires words_in_bounds { T.words ≤ length w.now }
    requires n_le_limit { n ≤ T.LIMIT }
    ensures { result ≡ judged (T.format request) [] (from (T.at w.now) 0 n) }
{
    for i in 0..n {
        let e = T::stored(w, i);
        e.fault(w, i, request)?;
    }
    Ok(())
}
