//! The routes, and what stands in a target.
ghost use Rattle.std.specs.Prelude.{◌≡◌, ◌&&◌, IfOk, OnErr, option_map, nat_lt, Err, bytes_eq, codes};
ghost use Rattle.std.specs.List.{AllByRecursion, list_all, list_any};
ghost use Rattle.std.specs.Str.{IsUtf8};
ghost use Rattle.matchit.specs.Params.{walk};
ghost use Rattle.room_wire.specs.Asks.Routing.{check_rows, room_rows, is_mark, is_ascii, action_of, target_model};
ghost use Rattle.room_wire.specs.Asks.Routing.{target_of, pairs_in, target_at};
ghost use Rattle.room_wire.specs.Asks.Targets.{room_target};

use crate::fault::WireFault;
use crate::forms::commands::bytes_fit;
use matchit::{InsertError, Params, Router};
use std::alloc::Global;
use std::marker::Model;

/// What a target is the route of.
#[derive(Clone, Copy, Debug, PartialEq, Eq)]
pub(crate) enum Route {
    Check,
    Session,
    Slot,
}

/// What is asked of a session.
#[derive(Clone, Copy, Debug, PartialEq, Eq)]
pub(crate) enum SessionAction {
    Open,
    Close,
    /// A command in a slot.
    Run,
}

/// What a method and a target ask.
#[derive(Clone, Copy, Debug, PartialEq, Eq)]
pub(crate) enum Action {
    Check,
    Session(SessionAction),
}

/// What a method and a target ask, with the parts of the target. A part that the route does not have is empty.
#[derive(Clone, Copy, Debug)]
pub(crate) struct Target<'t> {
    pub action: Action,
    pub sid: &'t str,
    pub slot: &'t str,
    pub seq: &'t str,
}

/// The routes of a room: `/v1/check`, and those of sessions and of requests in slots.
#[derive(Drop)]
pub struct Routes {
    router: Router<Route>,
}

impl Model for Routes {
    ghost use Rattle.std.specs.Prelude.{◌≡◌};
    ghost use Rattle.room_wire.specs.Asks.Routing.{room_rows};

    ghost Value = { Unit {0} };

    ghost view = { λ r. tt };

    ghost invariant = { λ r. r.router ≡ room_rows };
}

/// The route of questions alone: `/v1/check`.
#[derive(Drop)]
pub struct CheckRoute {
    router: Router<Route>,
}

impl Model for CheckRoute {
    ghost use Rattle.std.specs.Prelude.{◌≡◌};
    ghost use Rattle.room_wire.specs.Asks.Routing.{check_rows};

    ghost Value = { Unit {0} };

    ghost view = { λ r. tt };

    ghost invariant = { λ r. r.router ≡ check_rows };
}

fn check_router(alloc: Global) -> Result<Router<Route>, InsertError>
    ensures { IfOk result (λ router. router ≡ check_rows) }
{
    let mut router = Router::new(alloc);
    router.insert("/v1/check", Route::Check)?;
    Ok(router)
}

fn room_router(alloc: Global) -> Result<Router<Route>, InsertError>
    ensures { IfOk result (λ router. router ≡ room_rows) }
{
    let mut router = check_router(alloc)?;
    router.insert("/v1/sessions/{sid}", Route::Session)?;
    router.insert("/v1/sessions/{sid}/slots/{slot}/{seq}", Route::Slot)?;
    Ok(router)
}

impl Routes {
    /// Makes the routes.
    ///
    /// # Errors
    ///
    /// `Memory` where memory was refused, and no other.
    pub fn new(alloc: Global) -> Result<Routes, WireFault>
        ensures { OnErr result (result ≡ Err WireFault.Memory) }
    {
        match room_router(alloc) {
            Ok(router) => Ok(Routes { router }),
            Err(_) => Err(WireFault::Memory),
        }
    }

    /// What a method and a target ask of a room.
    pub(crate) fn target_at<'t>(&self, method: &[u8], target: &'t str) -> Option<Target<'t>>
        ensures { option_map target_model result ≡ room_target method.now target.now }
    {
        bytes_fit(target.as_bytes());
        target_in(&self.router, method, target)
    }
}

impl CheckRoute {
    /// Makes the route.
    ///
    /// # Errors
    ///
    /// `Memory` where memory was refused, and no other.
    pub fn new(alloc: Global) -> Result<CheckRoute, WireFault>
        ensures { OnErr result (result ≡ Err WireFault.Memory) }
    {
        match check_router(alloc) {
            Ok(router) => Ok(CheckRoute { router }),
            Err(_) => Err(WireFault::Memory),
        }
    }

    /// Whether a method and a target ask a question where those alone have a route.
    pub(crate) fn asks(&self, method: &[u8], target: &str) -> bool
        ensures { result ≡ (bytes_eq method.now (codes "POST") && bytes_eq target.now (codes "/v1/check")) }
    {
        match self.router.at(target) {
            Ok(_) => method == b"POST".as_slice(),
            Err(_) => false,
        }
    }
}

/// What a method and a target ask of a router: `None` where the target holds one of `?`, `#` and `%` or is
/// no route, and where the method is none of its route.
fn target_in<'t>(router: &Router<Route>, method: &[u8], target: &'t str) -> Option<Target<'t>>
    ensures { option_map target_model result ≡ target_at router.now method.now target.now }
{
    if has_mark(target.as_bytes()) {
        return None;
    }
    match router.at(target) {
        Ok(found) => Some(target_of(action_of(method, *found.value)?, &found.params, target)),
        Err(_) => None,
    }
}

fn has_mark(target: &[u8]) -> bool
    ensures { result ≡ list_any is_mark target.now }
{
    target
        .iter()
        .any(|b| *b == b'?' || *b == b'#' || *b == b'%')
}

fn is_ascii(text: &[u8]) -> bool
    ensures { result ≡ is_ascii text.now }
{
    text.iter().all(|b| *b < 128)
}

/// What a method asks of a route.
fn action_of(method: &[u8], route: Route) -> Option<Action>
    ensures { result ≡ action_of method.now route }
{
    match route {
        Route::Check if method == b"POST".as_slice() => Some(Action::Check),
        Route::Session if method == b"POST".as_slice() => {
            Some(Action::Session(SessionAction::Open))
        }
        Route::Session if method == b"DELETE".as_slice() => {
            Some(Action::Session(SessionAction::Close))
        }
        Route::Slot if method == b"POST".as_slice() => Some(Action::Session(SessionAction::Run)),
        _ => None,
    }
}

/// The parts of a target that is a route. Every part that is good for anything is ASCII, so nothing is
/// read of a target that is not.
fn target_of<'t>(action: Action, params: &Params<'_, 't>, target: &'t str) -> Target<'t>
    requires { params.now.path.now ≡ target.now }
    ensures { target_model result ≡ target_of action
        (pairs_in params.now.pattern.now params.now.text.now params.now.names.now target.now) }
{
    if is_ascii(target.as_bytes()) {
        parts_of(action, params)
    } else {
        Target {
            action,
            sid: "",
            slot: "",
            seq: "",
        }
    }
}

/// What the parameters took, in their order.
fn parts_of<'t>(action: Action, params: &Params<'_, 't>) -> Target<'t>
    requires { AllByRecursion (λ p. IsUtf8 p.1)
        (walk params.now.pattern.now params.now.text.now params.now.path.now params.now.names.now 0 0) }
    ensures { target_model result ≡ target_of action
        (walk params.now.pattern.now params.now.text.now params.now.path.now params.now.names.now 0 0) }
{
    let mut target = Target {
        action,
        sid: "",
        slot: "",
        seq: "",
    };
    let mut parts = params.iter();
    let Some((_, sid)) = parts.next() else {
        return target;
    };
    target.sid = sid;
    let Some((_, slot)) = parts.next() else {
        return target;
    };
    target.slot = slot;
    if let Some((_, seq)) = parts.next() {
        target.seq = seq;
    }
    target
}
