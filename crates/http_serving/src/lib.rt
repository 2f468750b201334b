//! A server's side of HTTP connections, for any server: one request is read, it is routed by a table of paths, and one
//! response is written (RFC 9110, RFC 9112). What a right answer is, a server says itself, by `Answers`. It may also give the
//! text of a response that it has written out before. If memory is refused, the response is a 503, and that connection alone
//! ends so.
//!
//! A connection may be put off: it is heard, others are taken and given back, and it is answered later.
//!
//! `specs/Targets.antt` has the path of a target, `Queries` the members of its query, `Forms` how a request gives its message, `Routes`
//! which route a request asks for, `Written` when an answer as a server gives it is right, `Serving` what
//! a connection is answered and what a door's log says of it, `Hearing` one that was heard and not answered yet, `Returning`
//! connections that are given back, `OpenEntries` a log of which any entries are open yet, and `Law` that what is right is right
//! alone.
#![tactic(auto)]

pub use ends::{ConnectionEnd, print_connection};
pub use forms::{Form, request_form, says_protobuf};
pub use kept::{KeptAnswer, KeptAnswers, Meaning, Room};
pub use laws::{
    KeepsAnswers, SaysOfEntries, answers_follow_requests, kept_answers_stay_right,
    open_entries_are_closed, requests_ask_for_one_thing, requests_have_one_answer,
};
pub use queries::query_value;
pub use responses::{Answer, Response, SharedResponse, WrittenResponse, bare, write_out};
pub use routes::{Route, Routed, find_route};
pub use serving::{
    Answers, answer_request, answer_wire, give_back, hear_request, refuse_wire, serve_connection,
    serve_wire,
};

mod ends;
mod forms;
mod kept;
mod laws;
mod queries;
mod responses;
mod routes;
mod serving;
mod targets;
mod text_sink;
