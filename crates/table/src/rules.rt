// The rules of a Context ID, a segment and a checksum, for reading, writing and judging. The numbers may be any, so no sum is formed before its
// parts are tested.
ghost use Rattle.std.specs.Prelude.{◌≡◌};
ghost use Rattle.table.specs.Rules.{id_rule, segment_rule, clear_of, sum_rule};

use crate::STATIC_LIMIT;

// An ID is above the one before it and below 2^62.
pub fn id_rule(previous: u64, id: u64) -> bool
    ensures { result ≡ id_rule previous id }
{
    previous < id && id < varint::LIMIT
}

// A segment is at least 1 long, starts where the one before it ended or later, and ends within the limit.
pub fn segment_rule(ended: usize, offset: usize, size: usize) -> bool
    ensures { result ≡ segment_rule ended offset size }
{
    1 <= size && ended <= offset && offset <= STATIC_LIMIT && size <= STATIC_LIMIT - offset
}

// 20 <= start <= field <= 126, and an even number of bytes between them.
pub fn sum_rule(field: usize, start: usize) -> bool
    ensures { result ≡ sum_rule field start }
{
    20 <= start && start <= field && field <= STATIC_LIMIT - 2 && (field - start) % 2 == 0
}

// The two bytes of a field lie before a segment or behind it.
pub fn clear_of(field: usize, offset: usize, size: usize) -> bool
    ensures { result ≡ clear_of field offset size }
{
    if field < offset {
        2 <= offset - field
    } else {
        size <= field - offset
    }
}
