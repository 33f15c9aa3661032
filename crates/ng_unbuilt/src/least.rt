//! The first of some places. Each function goes on from the first of those before, and answers the first of all.

ghost use Rattle.std.specs.Prelude.{◌≡◌};
ghost use Rattle.ng_unbuilt.specs.Least as spec;

use ng_ast::Place;

/// The earlier of what was found and a place.
pub(crate) fn earlier(best: Option<Place>, place: Place) -> Option<Place>
    ensures { result ≡ spec.earlier best place }
{
    match best {
        Some(found) if found.byte <= place.byte => Some(found),
        _ => Some(place),
    }
}

/// The earlier of what was found and a place, if it is wanted.
pub(crate) fn offer(wanted: bool, place: Place, best: Option<Place>) -> Option<Place>
    ensures { result ≡ spec.least_of best (spec.when wanted place) }
{
    if wanted {
        return earlier(best, place);
    }
    best
}
