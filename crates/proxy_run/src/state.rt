use crate::held::HeldLooks;
use client_rounds::ClientRounds;
use sb_outside::Wire;
use std::marker::Model;
use url_checker::Sizes;

/// A proxy in its run.
#[derive(Drop)]
pub(crate) struct ProxyRun<W: Wire> {
    pub(crate) rounds: ClientRounds,
    // the sizes of the prefixes on its lists
    pub(crate) sizes: Sizes,
    pub(crate) held: HeldLooks<W>,
    // whether no more connections come
    pub(crate) no_more: bool,
}

impl<W: Wire> Model for ProxyRun<W> {
    ghost use Rattle.proxy_run.specs.SoFar.{ProxyOwn};
    ghost use Rattle.url_checker.specs.Hits.{MarksAll};

    ghost Value = { ProxyOwn };

    ghost view = { λ m. record { rounds = m.rounds; marks = m.sizes.marks; looks = m.held; no_more = m.no_more } };

    ghost invariant = { λ m. MarksAll m.sizes.marks m.rounds.state.lists };
}
