ghost use Rattle.std.specs.Prelude.{◌≡◌};
ghost use Rattle.vg_stage.specs.Earliest.{earlier as earlier_of};

/// The less of two places.
pub(crate) fn earlier(at: Option<usize>, other: Option<usize>) -> Option<usize>
    ensures { result ≡ earlier_of at other }
{
    match (at, other) {
        (None, other) => other,
        (Some(at), None) => Some(at),
        (Some(at), Some(other)) => Some(at.min(other)),
    }
}
