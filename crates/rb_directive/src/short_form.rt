//! Directives with one word or none.
//!
//! Most directives of a script have one word, a node. Their requests are built without [`Arguments`](crate::arguments).

ghost use Rattle.std.specs.Prelude.{◌≡◌, [], ◌∷◌, IfSome};
ghost use Rattle.rb_script.specs.Tokens.{plain};
ghost use Rattle.rb_directive.specs.Requests.{asked_of};
ghost use Rattle.rb_directive.specs.ShortForms.{asks, of_ids, of_node, of_first, of_word, of_nothing};

use crate::argument::{Argument, Number};
use crate::form::{id_of, number_within};
use crate::id_list::IdList;
use crate::limits::ROUNDS;
use crate::name::Name;
use crate::requests::{DeliverMsgs, MailChoice, Request};
use crate::table::Row;
use rb_script::DirectiveRef;

// The request of a directive that takes ids, with these ids.
fn of_ids<'d>(name: Name, ids: IdList) -> Option<Request<'d>>
    ensures { result ≡ of_ids name ids }
{
    match name {
        Name::ProcessReady => Some(Request::ProcessReady(ids)),
        Name::Restart => Some(Request::Restart(ids)),
        Name::DeliverMsgs => Some(Request::DeliverMsgs(DeliverMsgs {
            nodes: ids,
            choice: MailChoice::all(),
            drop: IdList::new(),
        })),
        Name::Stabilize => Some(Request::Stabilize(ids, ROUNDS)),
        _ => None,
    }
}

// The request of a directive that requires only a node, with this node.
fn of_node<'d>(name: Name, id: u64) -> Option<Request<'d>>
    ensures { result ≡ of_node name id }
{
    match name {
        Name::NodeCommand(node_command) => Some(Request::NodeCommand(node_command, id)),
        Name::RaftLog => Some(Request::RaftLog(id)),
        Name::Status => Some(Request::Status(id)),
        _ => None,
    }
}

// The request of a directive whose first word is a node.
fn of_first<'d>(name: Name, first: Option<Argument>, word: &[u8]) -> Option<Request<'d>>
    ensures { result ≡ of_first name first word.now }
{
    match first {
        Some(Argument::Number(Number::Id, low, high)) => {
            of_node(name, number_within(word, low, high)?)
        }
        _ => None,
    }
}

// The request of a directive with one word.
fn of_word<'d>(row: &Row, word: &[u8]) -> Option<Request<'d>>
    ensures { result ≡ of_word row.now word.now }
{
    if !row.takes_ids {
        return of_first(row.name, row.first, word);
    }
    of_ids(row.name, IdList::one(id_of(word)?))
}

// The request of a directive without arguments.
fn of_nothing<'d>(name: Name) -> Option<Request<'d>>
    ensures { result ≡ of_nothing name }
{
    match name {
        Name::Stabilize => Some(Request::Stabilize(IdList::new(), ROUNDS)),
        Name::RaftState => Some(Request::RaftState),
        _ => None,
    }
}

/// Reads a directive with one word or none. Returns `None` if this isn't enough.
pub(crate) fn short_request<'d>(row: &Row, directive: &'d DirectiveRef<'d>) -> Option<Request<'d>>
    ensures { IfSome result (λ r. asked_of row.now (plain directive.now) ≡ asks r) }
{
    match directive.args() {
        0 => of_nothing(row.name),
        1 => {
            if directive.has_equals(0) {
                None
            } else {
                of_word(row, directive.key(0))
            }
        }
        _ => None,
    }
}
