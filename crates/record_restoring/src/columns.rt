//! Tests of columns.
ghost use Rattle.std.specs.Prelude.{◌≡◌, ◌&&◌, int_le};

// Whether the number is at least the first and at most the second.
pub(crate) fn is_between(low: i64, high: i64, number: i64) -> bool
    ensures { result ≡ (int_le low number && int_le number high) }
{
    low <= number && number <= high
}
