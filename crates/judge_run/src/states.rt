ghost use Rattle.std.specs.Prelude.{◌≡◌, [], slice_index_or, IfOk, IfSome};
ghost use Rattle.update_client.specs.Held.{tokens_of};
ghost use Rattle.snapshot_publish.specs.Publications.{IsPublicationKept};

use sb_model::{Bytes, OutOfMemory, Row};
use snapshot_publish::Publisher;
use std::alloc::Global;

/// The tokens of the lists of a publication, as a find carries them.
#[derive(Drop)]
pub(crate) struct States {
    number: u64,
    pub(crate) tokens: Row<Bytes>,
}

// The tokens of a publication that is kept.
fn read_states(alloc: Global, publisher: &Publisher, number: u64) -> Result<States, OutOfMemory>
    requires { IsPublicationKept publisher.now.list number }
    ensures number { IfOk result (λ states. states.number ≡ number) }
    ensures tokens { IfOk result (λ states. states.tokens
        ≡ tokens_of (slice_index_or publisher.now.list number [])) }
{
    let Some(snapshot) = publisher.published(number) else {
        unreachable!()
    };
    Ok(States {
        number,
        tokens: snapshot.lists.states(alloc)?,
    })
}

/// The tokens of a publication that is kept, read only where they are not known.
pub(crate) fn states_of(
    alloc: Global,
    publisher: &Publisher,
    number: u64,
    known: Option<States>,
) -> Result<States, OutOfMemory>
    requires kept { IsPublicationKept publisher.now.list number }
    requires known { IfSome known (λ states. states.tokens
        ≡ tokens_of (slice_index_or publisher.now.list states.number [])) }
    ensures number { IfOk result (λ states. states.number ≡ number) }
    ensures tokens { IfOk result (λ states. states.tokens
        ≡ tokens_of (slice_index_or publisher.now.list number [])) }
{
    match known {
        Some(states) if states.number == number => Ok(states),
        _ => read_states(alloc, publisher, number),
    }
}
