ghost use Rattle.client_laws.specs.Reports.{JudgedAreComplete, JudgedVerdictsHold, RowsOfVerdictsHold, RunsOfVerdictsHold};
ghost use Rattle.client_laws.specs.Saving.{JudgingsSaveReplicas};

use crate::{
    resolutions_are_complete, resolutions_are_steps, resolved_verdicts_are_lookups,
    rounds_save_replicas, stores_begin_runs,
};
use client_store::{cut_stores_are_not_read, read_texts_are_stores};
use sb_round::rounds_are_their_sessions;

/// The law of URLs that are judged in order on replicas of a server's lists: each verdict whose deciding answers were faithful is borne
/// out, and where no hit of the URL was left open it equals a look-up of each expression's hash in the full lists. The premise and what
/// follows are those of one verdict alone. The answers that were kept for it are those that the URLs before it got.
pub fn rows_of_verdicts_hold()
    // It holds of any cases of lines.
    ensures cases { RowsOfVerdictsHold }

    // It holds of lines that were seen to be judged, wherever the run ended.
    ensures judged { JudgedVerdictsHold }
{
    resolved_verdicts_are_lookups();
    resolutions_are_steps();
}

/// The same of a whole run that came to its end, from a kept text that begins it with replicas, where the updates that it made beside the
/// checks met an honest server: the lists of each publication are replicas, and each line of its report is of the verdict that is spoken of,
/// or of the fault for which the line has no canonical form.
pub fn runs_of_verdicts_hold()
    ensures { RunsOfVerdictsHold }
{
    rows_of_verdicts_hold();
    stores_begin_runs();
    rounds_save_replicas();
}

/// The law that nothing is left open without a cause: each URL that has a canonical form is said to be safe or unsafe where nothing had
/// to be asked, and where its find was made, passed and was read; and one that is left undecided names why there was no answer.
pub fn judged_urls_are_decided()
    ensures { JudgedAreComplete }
{
    resolutions_are_complete();
}

/// The law of what a run saves, wherever it ends: where it began with replicas, and the updates that it made met an honest server, each store
/// that it handed to its keeper is one of replicas, and what is kept is what was kept before, or no store, or reads as replicas.
pub fn judgings_save_replicas()
    ensures { JudgingsSaveReplicas }
{
    rounds_are_their_sessions();
    rounds_save_replicas();
    cut_stores_are_not_read();
    read_texts_are_stores();
}
