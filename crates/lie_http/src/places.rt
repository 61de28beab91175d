// The places of the service, by their paths.
ghost use Rattle.std.specs.Prelude.{◌≡◌, Some, IfOk};
ghost use Rattle.lie_http.specs.Places.{LeadsTo};
ghost use Rattle.lie_http.specs.Routes.{route_of};

use crate::routes::{Route, route_of};
use lie_outer::{Name, NoMemory};
use std::alloc::Global;
use std::str;

/// A place of the service.
#[derive(Drop)]
pub(crate) enum Place {
    Analyse,
    Studies,
    Study(Name),
    Nowhere,
}

// The place of a path to a study, whose rest is to be a name.
fn study_place(alloc: Global, path: &[u8]) -> Result<Place, NoMemory>
    requires { route_of path.now ≡ Some Route.Study }
    ensures { IfOk result (λ place. LeadsTo path.now place) }
{
    let Some(rest) = path.strip_prefix(b"/study/".as_slice()) else {
        return Ok(Place::Nowhere);
    };
    match Name::read(alloc, rest)? {
        Some(name) => Ok(Place::Study(name)),
        None => Ok(Place::Nowhere),
    }
}

/// The place of a path.
pub(crate) fn place_of(alloc: Global, path: &[u8]) -> Result<Place, NoMemory>
    ensures { IfOk result (λ place. LeadsTo path.now place) }
{
    let Ok(text) = str::from_utf8(path) else {
        return Ok(Place::Nowhere);
    };
    match route_of(alloc, text)? {
        None => Ok(Place::Nowhere),
        Some(Route::Analyse) => Ok(Place::Analyse),
        Some(Route::Studies) => Ok(Place::Studies),
        Some(Route::Study) => study_place(alloc, path),
    }
}
