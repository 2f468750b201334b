ghost use Rattle.std.specs.Prelude.{◌≡◌, None, Some, IsSome};
ghost use Rattle.proxy_run.specs.LookAllowed.{IsRefusedLook};
ghost use Rattle.proxy_run.specs.LookSoFar.{HoldLooksSo, LookStart};
ghost use Rattle.proxy_run.specs.LookState.{HandLook, LookState};
ghost use Rattle.proxy_run.specs.LookSteps.{GivesLook, HasFate, HasFateOrRefused, KeepsDoor};
ghost use Rattle.proxy_run.specs.declared.plan.ProxyPlan.{ProxyPlan as Plan};

use crate::held::HeldLooks;
use crate::looks_world::LookWorld;
use crate::telling::tell_over;
use client_line::Line;
use held_connections::{answer_hand, refuse_hand};
use proxy_serving::{LookFate, ProxyServer};
use sb_model::OutOfMemory;
use sb_outside::{Door, Sink};
use std::alloc::Global;

/// Answers the connection in hand by this fate, gives it back, and tells it.
pub(crate) fn answer_by<O: Sink, M: Line, D: Door>(
    alloc: Global,
    held: &mut HeldLooks<D::Wire>,
    fate: LookFate,
    world: &mut LookWorld<O, M, D>,
)
    requires { IsSome held.old.connections.hand }
    ensures gives { (plan : Plan) (start : LookStart) (state : LookState) (hand : HandLook) → HoldLooksSo plan start state held.old world.old → state.hand ≡ Some hand
        → GivesLook plan start state hand (HasFate fate) held.new world.new }
    ensures others { held.new ≡ record held.old { connections = record held.old.connections { hand = None }; stop = held.new.stop } }
    ensures door { KeepsDoor world.old world.new }
{
    let mut server = ProxyServer::new(fate);
    let ended = answer_hand(alloc, &mut held.connections, &mut server, &mut world.door);
    tell_over(alloc, held, &ended, &mut world.out);
}

/// Refuses the connection in hand, for which memory was refused, gives it back, and tells it.
pub(crate) fn refuse<O: Sink, M: Line, D: Door>(
    alloc: Global,
    held: &mut HeldLooks<D::Wire>,
    world: &mut LookWorld<O, M, D>,
)
    requires { IsSome held.old.connections.hand }
    ensures gives { (plan : Plan) (start : LookStart) (state : LookState) (hand : HandLook) → HoldLooksSo plan start state held.old world.old → state.hand ≡ Some hand
        → GivesLook plan start state hand (IsRefusedLook hand) held.new world.new }
    ensures others { held.new ≡ record held.old { connections = record held.old.connections { hand = None }; stop = held.new.stop } }
    ensures door { KeepsDoor world.old world.new }
{
    let mut server = ProxyServer::new(LookFate::Unanswered);
    let ended = refuse_hand(alloc, &mut held.connections, &mut server, &mut world.door);
    tell_over(alloc, held, &ended, &mut world.out);
}

/// Answers the connection in hand by the fate of its URLs, or refuses it if memory was refused for that.
pub(crate) fn answer_or_refuse<O: Sink, M: Line, D: Door>(
    alloc: Global,
    held: &mut HeldLooks<D::Wire>,
    fate: Result<LookFate, OutOfMemory>,
    world: &mut LookWorld<O, M, D>,
)
    requires { IsSome held.old.connections.hand }
    ensures gives { (plan : Plan) (start : LookStart) (state : LookState) (hand : HandLook) → HoldLooksSo plan start state held.old world.old → state.hand ≡ Some hand
        → GivesLook plan start state hand (HasFateOrRefused hand fate) held.new world.new }
    ensures others { held.new ≡ record held.old { connections = record held.old.connections { hand = None }; stop = held.new.stop } }
    ensures door { KeepsDoor world.old world.new }
{
    match fate {
        Ok(fate) => answer_by(alloc, held, fate, world),
        Err(OutOfMemory) => refuse(alloc, held, world),
    }
}
