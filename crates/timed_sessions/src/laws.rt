ghost use Rattle.timed_sessions.specs.Law.{BeginsTrace, GoesOnWithTrace, GoesOnWaiting};

/// The law of everything that a client does step by step: what is told of no step is nothing more, and what is told of one and then of another is
/// told of both, in this order.
pub fn traces_go_on()
    ensures none { BeginsTrace }
    ensures one_more { GoesOnWithTrace }
{}

/// Sessions of which none precedes its allowed moment, and one more that does not precede what they leave, are such sessions.
pub fn sessions_keep_to_waits()
    ensures { GoesOnWaiting }
{}
