//! The sooner and the later of two ends. None is no end by the horizon.
ghost use Rattle.std.specs.Prelude.{◌≡◌};
ghost use Rattle.rest_bound.specs.Table.{sooner, later};

/// The sooner of two ends.
pub(crate) fn sooner_end(a: Option<u32>, b: Option<u32>) -> Option<u32>
    ensures { result ≡ sooner a b }
{
    match (a, b) {
        (None, _) => b,
        (Some(_), None) => a,
        (Some(x), Some(y)) => { if x <= y { a } else { b } }
    }
}

/// The later of two ends.
pub(crate) fn later_end(a: Option<u32>, b: Option<u32>) -> Option<u32>
    ensures { result ≡ later a b }
{
    match (a, b) {
        (Some(x), Some(y)) => { if x <= y { b } else { a } }
        _ => None,
    }
}
