use sb_model::Text;

/// Who asks: the field `client` of a request.
#[derive(Debug, Drop)]
pub struct ClientInfo {
    /// The name of the client's program; empty where it tells none.
    pub id: Text,
    /// The program's version; empty where it tells none.
    pub version: Text,
}
