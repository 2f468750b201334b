//! What both ends of the protocol come to together: whatever `delta_server` answers from a journal that `list_versions` has
//! read is an update that the client of `update_client` may trust, as far as it trusts the journal.
#![tactic(auto)]

ghost use Rattle.std.specs.Prelude.{ℕ, ◌<◌, ◌≤◌, All};
ghost use Rattle.sb_model.specs.History.{up_to_version, version_count};
ghost use Rattle.update_messages.specs.Messages.{Request};
ghost use Rattle.update_messages.specs.Answer.{fetch_answer};
ghost use Rattle.update_client.specs.Genuine.{IsAnswerItem};
ghost use Rattle.delta_server.specs.Tokens.{server_naming};

use delta_server::tokens_name_versions;
use list_versions::History;
use sb_model::{Added, Change};
use update_client::answers_are_genuine;

fn is_byte(byte: u8)
    ensures { byte < 256 }
{}

// Each member of a hash is a byte.
fn is_of_bytes(hash: &[u8; 32])
    ensures { All (λ byte. byte < 256) hash.now }
{
    for byte in hash {
        is_byte(*byte);
    }
}

fn are_of_bytes(adds: &[Added])
    ensures { All (λ added. All (λ byte. byte < 256) added.hash) adds.now }
{
    for added in adds {
        is_of_bytes(&added.hash);
    }
}

// The full hashes that changes add are strings of bytes.
fn hashes_are_bytes(changes: &[Change])
    ensures { All (λ change. All (λ added. All (λ byte. byte < 256) added.hash) change.adds) changes.now }
{
    for change in changes {
        are_of_bytes(change.adds.as_slice());
    }
}

/// Each item of what `answer_fetch` answers from a history that was read of a journal is an update that the server could have
/// made, and a partial one names the state that it was made for. So it is of what was answered when the journal had fewer
/// changes. The request may ask for any lists.
pub fn served_answers_are_genuine(history: &History)
    // What is answered now.
    ensures now { (wait : ℕ) (request : Request)
        → All (IsAnswerItem history.now.versions (server_naming history.now.versions))
        (fetch_answer history.now.versions (server_naming history.now.versions) wait request).items }

    // What was answered at an earlier version.
    ensures earlier { (count wait : ℕ) (request : Request) → count ≤ version_count history.now.versions
        → All (IsAnswerItem history.now.versions (server_naming history.now.versions))
        (fetch_answer (up_to_version count history.now.versions) (server_naming history.now.versions) wait request).items }
{
    let _ = history.epoch();
    let _ = history.len();
    hashes_are_bytes(history.changes());
    tokens_name_versions();
    answers_are_genuine();
}
