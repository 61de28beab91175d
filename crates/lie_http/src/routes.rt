// The routes of the service in a router.
ghost use Rattle.std.specs.Prelude.{◌≡◌, IfOk};
ghost use Rattle.lie_http.specs.Routes.{the_routes, route_of};

use lie_outer::NoMemory;
use matchit::{InsertError, Router};
use std::alloc::Global;

/// The routes of the service, the last of which has a parameter.
#[derive(Clone, Copy)]
pub(crate) enum Route {
    Analyse,
    Studies,
    Study,
}

// All routes.
fn routes(alloc: Global) -> Result<Router<Route>, InsertError>
    ensures { IfOk result (λ router. router ≡ the_routes) }
{
    let mut router = Router::new(alloc);
    router.insert("/analyse", Route::Analyse)?;
    router.insert("/study", Route::Studies)?;
    router.insert("/study/{name}", Route::Study)?;
    Ok(router)
}

// No route is refused, so that what is wanting is memory.
fn no_memory(_fail: InsertError) -> NoMemory {
    NoMemory
}

// The route that the router finds.
fn route_in(router: &Router<Route>, path: &str) -> Option<Route>
    requires { router.now ≡ the_routes }
    ensures { result ≡ route_of path.now }
{
    match router.at(path) {
        Ok(found) => Some(*found.value),
        Err(_) => None,
    }
}

/// The route of a path, if it has one.
pub(crate) fn route_of(alloc: Global, path: &str) -> Result<Option<Route>, NoMemory>
    ensures { IfOk result (λ route. route ≡ route_of path.now) }
{
    let router = routes(alloc).map_err(|fail| no_memory(fail))?;
    Ok(route_in(&router, path))
}
