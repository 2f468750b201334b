use http_edge::ExchangeFault;
use sb_json::MessageFault;
use sb_model::{Bytes, ListName, Moment, Row};
use url_canon::UrlFault;

/// Why a verdict is left open.
#[derive(Debug, Drop)]
pub enum Cause {
    /// 1: a find may not be sent before this moment.
    NotBefore(Moment),
    /// 2: the session of the find gave no body.
    Exchange(ExchangeFault),
    /// 3: its body is no message.
    Message(MessageFault),
}

/// What is said of a URL.
#[derive(Debug, Drop)]
pub enum Verdict {
    /// No list has the full hash of one of its expressions.
    Safe,
    /// These lists have one, in the order of their names.
    Unsafe(Row<ListName>),
    /// Some expression's prefix is on a list, and nothing said whether its full hash is.
    Undecided(Cause),
}

/// What became of a URL. Want of memory is never a cause or a fault that stands here.
#[derive(Debug, Drop)]
pub enum Judged {
    /// Its verdict, resolved from the publication of this number, and its canonical text.
    Verdict {
        number: u64,
        text: Bytes,
        verdict: Verdict,
    },
    /// It has no canonical form.
    Refused(UrlFault),
}
