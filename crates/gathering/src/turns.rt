ghost use Rattle.std.specs.Prelude.{◌≡◌, [], length, true, false, IfSome, IfNone};
ghost use Rattle.std.specs.List.{All, IsFirstBest, HoldsAt};
ghost use Rattle.gathering.specs.Turns.{turn_key, turn_before, yield_key, yield_before, may_yield};

use crate::{Address, Crowd, Phase, Shares};

/// One whose request is decided.
#[derive(Clone, Copy, Debug, PartialEq, Eq)]
pub struct InLine {
    /// The slot of its connection.
    pub slot: usize,
    /// The number of its connection: whoever came later has a higher one.
    pub serial: u64,
    pub address: Address,
    /// Since when it waits for its turn.
    pub since: u64,
}

/// By what those in line are put in order: how long the answers of the address took, since when they wait, and when they came.
fn turn_key(shares: &Shares, one: &InLine) -> [u64; 3]
    ensures { result ≡ turn_key shares.now one.now }
{
    [shares.took(one.address), one.since, one.serial]
}

/// Whether one in line has its turn before another.
fn is_before(shares: &Shares, one: &InLine, other: &InLine) -> bool
    ensures { result ≡ turn_before shares.now one.now other.now }
{
    turn_key(shares, one).cmp(&turn_key(shares, other)).is_lt()
}

/// Whose turn it is: the place in the line of one whose address took least, and among these of the one that waits longest.
pub fn first_turn(shares: &Shares, line: &[InLine]) -> Option<usize>
    ensures first { IfSome result (λ at. IsFirstBest (turn_before shares.now) line.now (length line.now) at) }
    ensures none { IfNone result (line.now ≡ []) }
{
    if line.is_empty() {
        return None;
    }
    let mut first = 0;
    for at in 1..line.len() {
        if is_before(shares, &line[at], &line[first]) {
            first = at;
        }
    }
    Some(first)
}

/// An open connection, where the house is full.
#[derive(Clone, Copy, Debug, PartialEq, Eq)]
pub struct Candidate {
    /// The slot of its connection.
    pub slot: usize,
    /// The number of its connection: whoever came later has a higher one.
    pub serial: u64,
    pub address: Address,
    pub phase: Phase,
}

/// Whether a connection may give way: it neither waits for its turn nor has it.
fn may_yield(phase: Phase) -> bool
    ensures { result ≡ may_yield phase }
{
    !matches!(phase, Phase::Decided { .. } | Phase::InTurn)
}

/// By what connections give way: those that may, first those of the address that has the most, then by their phase and the
/// moment that counts in it, and by when they came.
fn yield_key(crowd: &Crowd, one: &Candidate) -> [u64; 5]
    ensures { result ≡ yield_key crowd.now one.now }
{
    let few = u64::MAX - crowd.count(one.address);
    let (kind, at) = match one.phase {
        Phase::Past { since, .. } => (0, since),
        Phase::Gathering { since } => (1, since),
        Phase::Sending { last, .. } => (2, last),
        Phase::Decided { since } => (3, since),
        Phase::InTurn => (4, 0),
    };
    let last = if may_yield(one.phase) { 0 } else { 1 };
    [last, few, kind, at, one.serial]
}

/// Whether a connection gives way before another.
fn yields_before(crowd: &Crowd, one: &Candidate, other: &Candidate) -> bool
    ensures { result ≡ yield_before crowd.now one.now other.now }
{
    yield_key(crowd, one).cmp(&yield_key(crowd, other)).is_lt()
}

/// The place of the first of some connections, by the order in which they give way.
fn first_of_all(crowd: &Crowd, guests: &[Candidate]) -> Option<usize>
    ensures first { IfSome result (λ at. IsFirstBest (yield_before crowd.now) guests.now (length guests.now) at) }
    ensures none { IfNone result (guests.now ≡ []) }
{
    if guests.is_empty() {
        return None;
    }
    let mut first = 0;
    for at in 1..guests.len() {
        if yields_before(crowd, &guests[at], &guests[first]) {
            first = at;
        }
    }
    Some(first)
}

/// Who gives way in a full house, by its place among the connections: of the address that has the most open one that is past
/// its answer, else the one that has gathered longest, else the one of whose answer no byte was taken for longest; where
/// none of that address may, the same of the address with the next most. `None` comes only where none may.
pub fn first_to_yield(crowd: &Crowd, guests: &[Candidate]) -> Option<usize>
    ensures first { IfSome result (λ at. IsFirstBest (yield_before crowd.now) guests.now (length guests.now) at) }
    ensures may { IfSome result (λ at. HoldsAt (λ one. may_yield one.phase ≡ true) guests.now at) }
    ensures none { IfNone result (All (λ one. may_yield one.phase ≡ false) guests.now) }
{
    let first = first_of_all(crowd, guests)?;
    if may_yield(guests[first].phase) {
        Some(first)
    } else {
        None
    }
}
