ghost use Rattle.std.specs.Prelude.{ℕ, ◌<◌, ◌^◌};
ghost use Rattle.sb_model.specs.History.{History, version_count};
ghost use Rattle.sb_model.specs.Naming.{IsNaming};
ghost use Rattle.delta_server.specs.Tokens.{server_naming};

/// The tokens of a server name its versions, where the epoch and the count of changes are numbers
/// of 64 bits.
#[tactic(auto, unfolding(crate::specs::Tokens::server_token))]
pub fn tokens_name_versions()
    ensures { (history : History) → history.epoch < 2 ^ 64 → version_count history < 2 ^ 64
        → IsNaming history (server_naming history) }
{}
