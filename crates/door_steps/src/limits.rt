use crate::step::Step;
use gathering::DoorLimits;

/// Limits that are short, and so long that a machine with other work keeps within them.
pub(crate) const SHORT: DoorLimits = DoorLimits {
    connections: 32,
    request: 2_000,
    turn: 30_000,
    stall: 600,
    answer: 60_000,
    bytes_a_second: 100_000,
    rest: 200,
    rest_bytes: 65_536,
    gathered_bytes: 1_048_576,
    answer_bytes: 67_108_864,
    finish: 10_000,
};

/// The same, but with times that nothing here passes.
const PATIENT: DoorLimits = DoorLimits {
    request: 60_000,
    stall: 60_000,
    rest: 60_000,
    ..SHORT
};

/// The limits with another value of one of them.
fn with_limit(limits: DoorLimits, name: &str, value: u64) -> DoorLimits {
    let mut limits = limits;
    match name {
        "connections" => limits.connections = usize::try_from(value).unwrap_or(0),
        "request" => limits.request = value,
        "turn" => limits.turn = value,
        "stall" => limits.stall = value,
        "answer" => limits.answer = value,
        "gathered_bytes" => limits.gathered_bytes = value,
        "answer_bytes" => limits.answer_bytes = value,
        "finish" => limits.finish = value,
        _ => {}
    }
    limits
}

/// The limits that a step says: `short` or `patient`, and then values by their names.
pub(crate) fn limits_of(step: &Step<'_>) -> DoorLimits {
    let mut limits = if step.word(0) == "short" {
        SHORT
    } else {
        PATIENT
    };
    for word in step.text(1).split(' ') {
        if let Some((name, value)) = word.split_once('=') {
            limits = with_limit(limits, name, value.parse::<u64>().unwrap_or(0));
        }
    }
    limits
}
