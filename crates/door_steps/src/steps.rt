use crate::door_steps::run_of_door;
use crate::groups::{
    ask_all, closed_ones, connect_all, connect_all_by_four, good_ones, is_closed, post_all,
};
use crate::outcome::Outcome;
use crate::peer_steps::{as_much, reset, run_of_one, trickle_text, write_text};
use crate::stage::Stage;
use crate::step::Step;
use crate::together::{drain, drip, flood, press, read_bits};

/// A step of peers that changes which there are, or has them write.
fn run_of_peers(stage: &mut Stage<'_>, step: &Step<'_>) -> Option<Outcome> {
    let one = step.peer(0);
    Some(match step.name {
        "peer" => stage.connect(one),
        "ask" => stage.ask(one),
        "four" => stage.connect_by_four(one),
        "fours" => connect_all_by_four(stage, one, step.peer(1)),
        "posts" => post_all(stage, one, step.peer(1), step.number(2)),
        "peers" => connect_all(stage, one, step.peer(1)),
        "asks" => ask_all(stage, one, step.peer(1)),
        "text" => write_text(stage, one, step.text(1)),
        "leave" => stage.row.set(one, None),
        "reset" => reset(stage, one),
        _ => return None,
    })
}

/// A step that looks at peers.
fn run_of_looks(stage: &mut Stage<'_>, step: &Step<'_>) -> Option<Outcome> {
    let one = step.peer(0);
    let other = step.peer(1);
    Some(match step.name {
        "closed" => Outcome::Truth(is_closed(stage, one)),
        "gone" => Outcome::Numbers(closed_ones(stage, one, other)),
        "good" => Outcome::Count(good_ones(stage, one, other, step.number(2))),
        "much" => as_much(stage, one, other),
        _ => return None,
    })
}

/// A step of a peer beside the door.
fn run_of_both(stage: &mut Stage<'_>, step: &Step<'_>) -> Option<Outcome> {
    let one = step.peer(0);
    let number = step.number(1);
    Some(match step.name {
        "drain" => drain(stage, one, number),
        "trickle" => trickle_text(stage, one, number, step.text(2)),
        "drip" => drip(stage, one, number, step.number(2)),
        "bits" => read_bits(stage, one, number, step.number(2), step.number(3)),
        "press" => press(stage, one, number, step.number(2)),
        "flood" => flood(stage, one, number),
        _ => return None,
    })
}

/// A step of one peer.
fn run_of_peer(stage: &mut Stage<'_>, step: &Step<'_>) -> Option<Outcome> {
    match stage.row.get(step.peer(0)) {
        Some(peer) => run_of_one(peer, step),
        None => None,
    }
}

pub(crate) fn run(stage: &mut Stage<'_>, step: &Step<'_>) -> Outcome {
    if let Some(outcome) = run_of_door(stage, step) {
        return outcome;
    }
    if let Some(outcome) = run_of_peers(stage, step) {
        return outcome;
    }
    if let Some(outcome) = run_of_looks(stage, step) {
        return outcome;
    }
    if let Some(outcome) = run_of_both(stage, step) {
        return outcome;
    }
    match run_of_peer(stage, step) {
        Some(outcome) => outcome,
        None => Outcome::Cannot("no such step, or no such peer"),
    }
}
