use sb_model::Text;

/// Where a command has its objects.
#[derive(Debug, Drop)]
pub struct Targets {
    /// The path of the store.
    pub store: Option<Text>,
    /// Whether the command replaces the store.
    pub replaces: bool,
    /// The address of the server.
    pub server: Option<Text>,
}
