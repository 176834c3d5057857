//! A request, as its message has it.

use crate::rpc::MessageReader;
use crate::server::client::Client;
use crate::server::inquiry::Inquiry;
use serde_json::Value;

/// A request without its method.
#[derive(Drop)]
pub(crate) struct ClientRequest<'a> {
    pub(crate) id: &'a Value,
    pub(crate) params: Option<&'a Value>,
    /// What it was read from. If one of the next messages there cancels it, what it asks of a document isn't done.
    pub(crate) reader: &'a MessageReader,
}

/// A request about the document with this URI.
#[derive(Drop)]
pub(crate) struct DocumentRequest<'a> {
    pub(crate) client: Client,
    pub(crate) inquiry: Inquiry<'a>,
    pub(crate) uri: &'a [u8],
    pub(crate) id: &'a Value,
    /// As in [`ClientRequest`].
    pub(crate) reader: &'a MessageReader,
}
