use http_edge::ExchangeFault;
use sb_json::MessageFault;
use sb_model::{ListName, Moment, Row};
use update_client::ListResult;

/// Why a round brought no message. Want of memory is no such cause: `MessageFault::OutOfMemory` never stands in it.
#[derive(Debug, Drop)]
pub enum RoundFault {
    /// 1: the session gave no body.
    Exchange(ExchangeFault),
    /// 2: its body is no message.
    Message(MessageFault),
}

/// The name of an update, and what became of it.
#[derive(Debug, Drop)]
pub struct Taken {
    pub name: ListName,
    pub result: ListResult,
}

/// What came of a round.
#[derive(Debug, Drop)]
pub struct RoundEnd {
    /// When its session began.
    pub begun: Moment,
    /// The updates of the message, in order, or why there is none.
    pub taken: Result<Row<Taken>, RoundFault>,
}
