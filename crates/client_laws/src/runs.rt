ghost use Rattle.client_laws.specs.Runs.{HoldsOfRuns, StoresBeginRuns, HoldsOfRows, KeptIsPrinted, LeavesListsAlone, SavesReplicas};

use client_store::{cut_stores_are_not_read, read_texts_are_stores};
use sb_model::names_go_by_their_codes;
use sb_round::{logs_have_one_list_of_bodies, replicas_stay, rounds_are_their_sessions};

/// The law of every run, wherever it stopped: where the server's bodies that it took from the log are honest, and it began with replicas, each store
/// that it hands to its keeper is one of replicas and is read again, what is kept afterwards is what was kept before, or is
/// no store, or reads as replicas, and the lists that it prints at its end are replicas.
pub fn runs_hold()
    ensures { HoldsOfRuns }
{
    names_go_by_their_codes();
    replicas_stay();
    rounds_are_their_sessions();
    logs_have_one_list_of_bodies();
    cut_stores_are_not_read();
    read_texts_are_stores();
}

/// A run that begins with a kept text that reads as replicas, with one that is no store, or with none, begins with replicas.
pub fn stores_begin_runs()
    ensures { StoresBeginRuns }
{}

/// The law of runs in a row, each of which begins with what the one before it left, whether that came to its end or stopped: from
/// a kept text that is kept safely the headline holds of each, and what is kept at its end is kept safely.
pub fn rows_hold()
    ensures { HoldsOfRows }
{
    runs_hold();
    stores_begin_runs();
}

/// A round that installed no list leaves the token and the set of every list. Whether an update was refused may change.
pub fn rounds_leave_lists()
    ensures { LeavesListsAlone }
{
    names_go_by_their_codes();
}

/// After a whole run that installed a list, what is kept reads as lists with the tokens and the sets of those that are printed.
pub fn kept_is_printed()
    ensures { KeptIsPrinted }
{
    rounds_leave_lists();
    names_go_by_their_codes();
}

/// The law of what rounds save, from any kept text that begins a run with replicas: where their bodies are honest and no digest collides,
/// each set of lists that they save, and that is published of them, is one of replicas.
pub fn rounds_save_replicas()
    ensures { SavesReplicas }
{
    names_go_by_their_codes();
    replicas_stay();
    stores_begin_runs();
}
