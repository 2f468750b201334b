ghost use Rattle.proxy_looks.specs.Settled.{SettledKeepLooks};

/// Settled URLs that are open still have the looks that are given back with them, in order.
pub fn settled_urls_keep_their_looks()
    ensures { SettledKeepLooks }
{}
