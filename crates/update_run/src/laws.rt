ghost use Rattle.update_run.specs.Saved.{BeginsSaving, GoesOnWithSaves};
ghost use Rattle.update_run.specs.Stepping.{GoesOnSaving, StopsAfterSteps};
ghost use Rattle.update_run.specs.Steps.{BeginsSteps, GoesOnWriting, GoesOnTaking};

use sb_round::rounds_go_on;

/// The law of rounds that a client takes one by one, from any lists and any state of waiting: none is taken at first, what waits
/// may be written after them, and with one round more they are rounds. So what they save, print and answer is what the whole of
/// them does.
pub fn steps_go_on()
    ensures none { BeginsSteps }
    ensures written { GoesOnWriting }
    ensures one_more { GoesOnTaking }
{
    rounds_go_on();
}

/// The law of what is saved, whatever lies between: nothing is saved at first, and what is saved and then saved is saved in this order.
pub fn saves_go_on()
    ensures none { BeginsSaving }
    ensures more { GoesOnWithSaves }
{}

/// What rounds that are taken one by one save with each further one, and where a client stops that stops in the next: after rounds,
/// as one that takes all of them does.
pub fn steps_save_and_stop()
    ensures saved { GoesOnSaving }
    ensures stopped { StopsAfterSteps }
{
    rounds_go_on();
}
