//! Laws of routes.
ghost use Rattle.std.specs.Prelude.{◌≡◌, ◌<◌, ◌↔◌, ℕ, true, false, List, codes, bytes_eq, option_map};
ghost use Rattle.std.specs.List.{AllByRecursion, list_any};
ghost use Rattle.room_wire.specs.declared.asks.routing.Route.{Route};
ghost use Rattle.room_wire.specs.declared.asks.routing.Action.{Action};
ghost use Rattle.room_wire.specs.Asks.Routing.{is_route, is_mark, is_ascii, check_rows, room_rows};
ghost use Rattle.room_wire.specs.Asks.Routing.{action_of};
ghost use Rattle.room_wire.specs.Asks.Targets.{IsTargetOf, room_target};

/// Where questions alone have a route, a target is that route where it is its text, and no other is.
pub fn check_route_is_one_target()
    ensures { (target : List ℕ) → is_route check_rows target ≡ bytes_eq target (codes "/v1/check") }
{}

/// The routes of a room are exactly these three texts, with any parts (`targets`); and such a target, in ASCII without
/// marks, asks by its method with just these parts (`asked`).
pub fn routes_are_three_targets()
    ensures targets { (target : List ℕ) → AllByRecursion (λ b. b < 256) target →
        (is_route room_rows target ≡ true) ↔ ((list_any is_mark target ≡ false)
        × ((route : Route) × (sid slot seq : List ℕ) × IsTargetOf route target sid slot seq)) }
    ensures asked { (method target sid slot seq : List ℕ) (route : Route) → is_ascii target ≡ true →
        list_any is_mark target ≡ false → IsTargetOf route target sid slot seq → room_target method target
        ≡ option_map (λ (action : Action). record { action = action; sid = sid; slot = slot; seq = seq })
        (action_of method route) }
{}
