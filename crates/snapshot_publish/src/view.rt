ghost use Rattle.snapshot_publish.specs.Rule.{Keeps, Looked, Appended, Replaced, Agrees, no_view, publishing, told_of, learnt};
ghost use Rattle.std.specs.Prelude.{[]};

use crate::Snapshot;
use crossbeam_queue::protocol::{Join, Lesson, Outcome, Protocol, Split};
use std::collections::LinkedList;
use update_client::ClientLists;

/// What is known at one end of a box. No value of it is made.
pub struct View {
    /// Publications, from the first on.
    pub list: LinkedList<ClientLists>,
    /// Publications that were known or learnt since a look found one.
    pub beside: LinkedList<LinkedList<ClientLists>>,
    /// Whether it is the publisher's.
    pub publishes: bool,
}

/// The rule of a box.
pub struct Rule;

impl Protocol<Snapshot, View> for Rule {
    ghost holds = { Keeps };

    ghost first = { publishing [] };
}

/// A look that finds a publication.
pub(crate) struct Looks;

impl Outcome<Snapshot, View> for Looks {
    ghost then = { Looked };
}

/// A publication.
pub(crate) struct Publishes;

impl Outcome<Snapshot, View> for Publishes {
    ghost then = { Appended };
}

/// What waited is replaced.
pub(crate) struct Replaces;

impl Outcome<Snapshot, View> for Replaces {
    ghost then = { Replaced };
}

/// A note is a copy of what the publisher knows.
pub(crate) struct Tells;

impl Split<View> for Tells {
    ghost left = { λ v. v };

    ghost right = { told_of };
}

/// A seat takes a note in.
pub(crate) struct Learns;

impl Join<View> for Learns {
    ghost both = { learnt };

    ghost spent = { no_view };
}

/// All that a seat knows begins the same publications.
pub(crate) struct Compares;

impl Lesson<Snapshot, View> for Compares {
    ghost fact = { λ v _. Agrees v };
}
