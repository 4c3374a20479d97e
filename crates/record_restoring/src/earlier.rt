//! The earlier of two rows at fault.
ghost use Rattle.std.specs.Prelude.{◌≡◌, nat_lt};
ghost use Rattle.graph_file.specs.Lists.{when};
ghost use Rattle.record_rules.specs.Faults as spec;

// The earlier of two rows.
pub fn earlier(first: Option<usize>, second: Option<usize>) -> Option<usize>
    ensures { result ≡ spec.earlier_row first second }
{
    match (first, second) {
        (None, _) => second,
        (Some(_), None) => first,
        (Some(one), Some(other)) => { if one <= other { first } else { second } }
    }
}

// The first row past a limit, where there are so many rows.
pub(crate) fn past_limit(limit: u32, count: usize) -> Option<usize>
    ensures { result ≡ when (nat_lt limit count) limit }
{
    let limit = limit as usize;
    if limit < count { Some(limit) } else { None }
}
