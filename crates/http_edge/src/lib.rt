//! HTTP/1.1 at both ends (RFC 9112), with heads read by `httparse`: a server's requests and responses over
//! sources and sinks, and a client's exchange over a link, each with its limits and its digest (RFC 9530).
#![tactic(auto)]

pub use deciding::RequestWatch;
pub use exchanging::{Exchanged, begin_exchange, end_exchange, exchange, receive_response};
pub use faults::{ExchangeFault, RequestFault, ResponseFault};
pub use fields::{BodyLength, Framing};
pub use laws::{one_body, passes};
pub use media_types::media_type_in;
pub use messages::{Allow, HttpRequest, MediaType, ResponseFields, Status, Target};
pub use paths::{kind_of, path_of};
pub use printing::push_exchange_cause;
pub use requests::read_request;
pub use responding::write_response;

mod chunks;
mod deciding;
mod digests;
mod exchanging;
mod faults;
mod fields;
mod head_places;
mod heads;
mod laws;
mod media_types;
mod messages;
mod paths;
mod printing;
mod receiving;
mod requests;
mod responding;
mod response_heads;
mod session_bytes;
mod unchunking;
