ghost use Rattle.std.specs.Prelude.{ℕ, List};
ghost use Rattle.sb_model.specs.History.{History};
ghost use Rattle.sb_model.specs.Naming.{Naming};
ghost use Rattle.update_client.specs.Held.{Held};
ghost use Rattle.update_client.specs.declared.options.FetchOptions.{FetchOptions};
ghost use Rattle.sb_round.specs.Round.{Round};
ghost use Rattle.both_ends_laws.specs.Answered.{AnsweredSessionsAreAnsweredRounds, WrittenAnswersReadAgain};
ghost use Rattle.both_ends_laws.specs.Complete.{AnsweredRunsAreComplete, AnsweredRunsKeepVersions};
ghost use Rattle.both_ends_laws.specs.Installs.{InstallsAnswers};
ghost use Rattle.both_ends_laws.specs.Versions.{KeepsVersions};

use crate::{fetch_answers_are_not_too_dense, fetch_requests_are_not_too_dense};
use http_edge::{one_body, passes};
use rice_coding::encoding_is_decoded;
use sb_model::{names_go_by_their_codes, targets_are_the_greatest};
use update_client::answers_are_genuine;
use update_messages::{
    values_read_one_way, values_read_or_have_a_fault, written_values_read_again,
};

/// A list's version at the end of rounds is not below that at the start, where no limit of the request binds, each message is
/// what the server answered to the request of its round, and the versions at which it answered do not fall and are not below that of
/// the list.
pub fn versions_do_not_go_back()
    ensures { (history : History) (token_at : Naming) (options : FetchOptions) (least : ℕ) (lists : List Held) (rounds : List Round)
        → KeepsVersions history token_at options least lists rounds }
{
    names_go_by_their_codes();
    targets_are_the_greatest();
}

/// Where a client's lists are replicas of the server's, each update of an answer to their request is installed: the round that
/// brings it prints `ok`, and tells of no refusal. The history's sets have to be no larger than a list may be.
pub fn answers_are_installed()
    ensures { (history : History) (token_at : Naming) (options : FetchOptions) (lists : List Held) (version wait : ℕ)
        → InstallsAnswers history token_at options lists version wait }
{
    names_go_by_their_codes();
    encoding_is_decoded();
    answers_are_genuine();
}

/// What a server writes of its answer to a request of at most 8 items reads as that answer, where this keeps to the ranges of messages.
pub fn written_answers_read_again()
    ensures { WrittenAnswersReadAgain }
{
    written_values_read_again();
    fetch_answers_are_not_too_dense();
}

/// Where each session of rounds was answered by a server, or lost, and the versions at which it answered do not fall, so is each round:
/// its message is what the server answered to the round's own request, or it has none.
pub fn answered_sessions_are_answered_rounds()
    ensures { AnsweredSessionsAreAnsweredRounds }
{
    passes();
    one_body();
    values_read_one_way();
    values_read_or_have_a_fault();
    written_values_read_again();
    fetch_requests_are_not_too_dense();
    targets_are_the_greatest();
}

/// A run that begins with replicas of a server's lists, and each of whose sessions the server answered, or was lost, is complete: each
/// answered round ends with `ok` and installs the update of every list that the server declares, the lists stay replicas, and where no
/// session was lost the run tells of no refusal. The run may name lists that the server does not declare. SHA-256 may have collisions.
pub fn answered_runs_are_complete()
    ensures { AnsweredRunsAreComplete }
{
    passes();
    one_body();
    values_read_one_way();
    values_read_or_have_a_fault();
    written_values_read_again();
    fetch_requests_are_not_too_dense();
    targets_are_the_greatest();
    names_go_by_their_codes();
    encoding_is_decoded();
    answers_are_genuine();
}

/// A list's version at the end of a run is not below that at its start, where each session of the log was answered by a server, or lost,
/// the versions at which it answered do not fall and are not below that of the list, and no limit of the request binds.
pub fn answered_runs_keep_versions()
    ensures { AnsweredRunsKeepVersions }
{
    passes();
    one_body();
    values_read_one_way();
    values_read_or_have_a_fault();
    written_values_read_again();
    fetch_requests_are_not_too_dense();
    targets_are_the_greatest();
    names_go_by_their_codes();
}
