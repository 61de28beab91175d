// What a request asks of the desk, by its path and its method.
ghost use Rattle.std.specs.Prelude.{◌≡◌, IfOk};
ghost use Rattle.lie_http.specs.Places.{at_place, at_study, IsDestination};

use crate::methods::is_method;
use crate::places::{Place, place_of};
use crate::request::Ask;
use http::Method;
use lie_outer::{Name, NoMemory};
use std::alloc::Global;

/// What the desk is to do.
#[derive(Debug, Drop)]
pub enum Order {
    /// Analyse the body.
    Analyse,
    /// List the names of all studies.
    List,
    /// Study the body under the name.
    Study(Name),
    /// Show the study of the name.
    Show(Name),
    /// Drop the study of the name.
    Drop(Name),
}

/// Where a request leads.
#[derive(Debug, Drop)]
pub enum Destination {
    /// To the desk, with an order.
    Desk(Order),
    /// The path is none of the service, or its name is none.
    NoSuchPath,
    /// The path is one of the service, and the method none of that path.
    NoSuchMethod,
}

// Where the methods lead at a study.
fn at_study(name: Name, method: &[u8]) -> Destination
    ensures { result ≡ at_study name method.now }
{
    if is_method(method, &Method::POST) {
        return Destination::Desk(Order::Study(name));
    }
    if is_method(method, &Method::GET) {
        return Destination::Desk(Order::Show(name));
    }
    if is_method(method, &Method::DELETE) {
        return Destination::Desk(Order::Drop(name));
    }
    Destination::NoSuchMethod
}

// Where the methods lead at a place.
fn at_place(place: Place, method: &[u8]) -> Destination
    ensures { result ≡ at_place place method.now }
{
    match place {
        Place::Analyse if is_method(method, &Method::POST) => Destination::Desk(Order::Analyse),
        Place::Studies if is_method(method, &Method::GET) => Destination::Desk(Order::List),
        Place::Study(name) => at_study(name, method),
        Place::Nowhere => Destination::NoSuchPath,
        _ => Destination::NoSuchMethod,
    }
}

/// Where a request leads. `NoMemory` where there is none for the routes or a name.
pub fn destination_of(alloc: Global, ask: &Ask) -> Result<Destination, NoMemory>
    ensures { IfOk result (λ to. IsDestination ask.now.method ask.now.path to) }
{
    let place = place_of(alloc, ask.path.bytes())?;
    Ok(at_place(place, ask.method.bytes()))
}
