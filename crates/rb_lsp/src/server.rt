//! The life of a language server: it answers each message of an editor before it reads the next, until the end.
//!
//! [`serve`] runs a server over any [`Source`] of [`rb_text`] and any [`Sink`] of [`rb_script`]. The server starts with `initialize`, answers
//! requests until `shutdown`, and ends with `exit`; an [`ExitStatus`] says how it ended. It keeps the texts of the open documents, publishes the
//! diagnostics of each after every change or, to a client that asks for them, reports them, and answers each [`Query`] about one. A [`Service`]
//! knows what documents mean. Answers, notifications and the next state depend on the message and on the state before it.
//!
//! Where memory is refused for what is said of a text, or its run is stopped, that is said: by one diagnostic, or by an error for a request. The
//! server continues. A request whose cancellation has been read is not done.
//!
//! [`Source`]: rb_text::Source
//! [`Sink`]: rb_script::Sink

mod answers;
mod beginning;
mod changes;
mod client;
mod documents;
mod inquiry;
mod item_span;
mod laws;
mod limits;
mod method;
mod outgoing;
mod phase;
mod publication;
mod query;
mod question;
mod reach;
mod report;
mod request;
mod selection;
mod server;
mod service;
mod serving;
mod stale;
mod stop;

pub use crate::rpc::ServeFault;
pub use client::Client;
pub use item_span::ItemSpan;
pub use laws::{
    conversations_are_one, notifications_have_no_answer, refusals_are_told,
    requests_have_one_answer, results_stand_in_answers, texts_are_answered, texts_are_diagnosed,
};
pub use limits::{MAX_DOCUMENTS, MAX_WORK, limits_are};
pub use phase::ExitStatus;
pub use query::Query;
pub use reach::Reach;
pub use service::{DocumentQuery, Service};
pub use serving::serve;
pub use stop::Stop;
