//! Building the request from the arguments, with defaults for those that aren't given.
//!
//! Each directive requires its arguments in a fixed order. The first missing one is reported.

ghost use Rattle.std.specs.Prelude.{◌≡◌, [], codes, IfOk};
ghost use Rattle.std.specs.Option.{unwrap_or};
ghost use Rattle.rb_script.specs.Tokens.{plain};
ghost use Rattle.rb_directive.specs.Requests.{require, add_nodes, propose, propose_conf_change, process_ready, restart, deliver_msgs, stabilize, node_command_with_arg, built, asked_of, request, IsWithin};

use crate::argument::Flag;
use crate::arguments::Arguments;
use crate::change::{Inputs, change_fault};
use crate::id_list::IdList;
use crate::limits::{ROUNDS, WINDOW};
use crate::name::Name;
use crate::node_command_with_arg::NodeCommandWithArg;
use crate::reading::read;
use crate::requests::{AddNodes, DeliverMsgs, MailChoice, ProposeConfChange, Request};
use crate::short_form::short_request;
use crate::table::{Row, row_of};
use rb_script::DirectiveRef;
use rb_vocab::{DirectiveError, Level, ScriptWord, Transition};

/// A request, and the level that the option `log-level` sets for this directive.
#[derive(Drop)]
pub struct Asked<'d> {
    pub request: Request<'d>,
    pub log_level: Option<Level>,
}

// Returns the required value, or an error with its name.
fn require<'d, T: Drop>(value: Option<T>, name: &'static [u8]) -> Result<T, DirectiveError<'d>>
    ensures { result ≡ require name.now value }
{
    match value {
        Some(value) => Ok(value),
        None => Err(DirectiveError::MissingArgument(ScriptWord::new(name))),
    }
}

// Returns the ids, or an empty list.
fn ids_or_none(ids: Option<IdList>) -> IdList
    ensures { result ≡ unwrap_or ids [] }
{
    match ids {
        Some(ids) => ids,
        None => IdList::new(),
    }
}

// Returns the required node.
fn require_id<'d>(given: &Arguments<'d>) -> Result<u64, DirectiveError<'d>>
    ensures { result ≡ require (codes "id") given.now.id }
{
    require(given.id, b"id")
}

fn add_nodes(given: Arguments<'_>) -> Result<Request<'_>, DirectiveError<'_>>
    ensures { result ≡ add_nodes given.entry }
{
    let count = require(given.count, b"n")?;
    let flags = given.flags;
    Ok(Request::AddNodes(AddNodes {
        count,
        voters: given.voters,
        learners: given.learners,
        index: given.index,
        content: given.content,
        inflight: given.inflight.unwrap_or(WINDOW),
        prevote: flags.get(Flag::Prevote).unwrap_or(false),
        check_quorum: flags.get(Flag::CheckQuorum).unwrap_or(false),
        step_down: flags.get(Flag::StepDown).unwrap_or(false),
    }))
}

fn propose(given: Arguments<'_>) -> Result<Request<'_>, DirectiveError<'_>>
    ensures { result ≡ propose given.entry }
{
    let id = require(given.id, b"id")?;
    let payload = require(given.payload, b"payload")?;
    Ok(Request::Propose(id, payload))
}

fn propose_conf_change<'d>(
    given: Arguments<'d>,
    inputs: Inputs<'d>,
) -> Result<Request<'d>, DirectiveError<'d>>
    ensures { result ≡ propose_conf_change given.entry inputs.entry }
{
    let id = require_id(&given)?;
    let transition = given.transition.unwrap_or(Transition::Auto);
    let fault = change_fault(
        given.flag(Flag::FirstVersion).unwrap_or(false),
        transition,
        &inputs,
    );
    Ok(Request::ProposeConfChange(ProposeConfChange {
        id,
        transition,
        inputs,
        fault,
    }))
}

fn process_ready(given: Arguments<'_>) -> Result<Request<'_>, DirectiveError<'_>>
    ensures { result ≡ process_ready given.entry }
{
    Ok(Request::ProcessReady(require(given.nodes, b"id")?))
}

fn restart(given: Arguments<'_>) -> Result<Request<'_>, DirectiveError<'_>>
    ensures { result ≡ restart given.entry }
{
    Ok(Request::Restart(require(given.nodes, b"id")?))
}

fn deliver_msgs(given: Arguments<'_>) -> Request<'_>
    ensures { result ≡ deliver_msgs given.entry }
{
    Request::DeliverMsgs(DeliverMsgs {
        nodes: ids_or_none(given.nodes),
        choice: MailChoice {
            types: given.types,
            from: given.from,
            skip: given.skip.unwrap_or(0),
            count: given.messages,
        },
        drop: ids_or_none(given.drop),
    })
}

fn stabilize(given: Arguments<'_>) -> Request<'_>
    ensures { result ≡ stabilize given.entry }
{
    let rounds = given.rounds.unwrap_or(ROUNDS);
    Request::Stabilize(ids_or_none(given.nodes), rounds)
}

fn node_command_with_arg<'d>(
    what: NodeCommandWithArg,
    given: &Arguments<'d>,
) -> Result<Request<'d>, DirectiveError<'d>>
    ensures { result ≡ node_command_with_arg what given.now }
{
    let (node, number) = what.required();
    let id = require(given.number(node), node.text())?;
    let value = require(given.number(number), number.text())?;
    Ok(Request::NodeCommandWithArg(what, id, value))
}

// Builds the request of a directive.
fn built<'d>(
    name: Name,
    given: Arguments<'d>,
    inputs: Inputs<'d>,
) -> Result<Request<'d>, DirectiveError<'d>>
    ensures { result ≡ built name given.entry inputs.entry }
{
    match name {
        Name::AddNodes => add_nodes(given),
        Name::NodeCommand(node_command) => Ok(Request::NodeCommand(
            node_command,
            require_id(&given)?,
        )),
        Name::Propose => propose(given),
        Name::ProposeConfChange => propose_conf_change(given, inputs),
        Name::ProcessReady => process_ready(given),
        Name::DeliverMsgs => Ok(deliver_msgs(given)),
        Name::Stabilize => Ok(stabilize(given)),
        Name::NodeCommandWithArg(node_command) => node_command_with_arg(node_command, &given),
        Name::Restart => restart(given),
        Name::LogLevel => Ok(Request::LogLevel(require(given.level, b"level")?)),
        Name::RaftLog => Ok(Request::RaftLog(require_id(&given)?)),
        Name::Status => Ok(Request::Status(require_id(&given)?)),
        Name::RaftState => Ok(Request::RaftState),
    }
}

// Reads a directive with any arguments. It is not inlined: a function clears its frame when it begins, and a directive with one word
// shouldn't pay for all possible arguments.
#[inline(never)]
fn long_request<'d>(
    row: &Row,
    directive: &'d DirectiveRef<'d>,
) -> Result<Asked<'d>, DirectiveError<'d>>
    ensures { result ≡ asked_of row.now (plain directive.now) }
{
    let given = read(row, directive)?;
    let log_level = given.log_level;
    let request = built(row.name, given, Inputs::of(directive))?;
    Ok(Asked { request, log_level })
}

/// Reads a directive into a request, or reports its first fault: an unknown name, the first wrong argument from left to right, or
/// a missing argument. Needs no cluster, and allocates nothing.
#[tactic(auto, unfolding(crate::specs::Requests::request))]
pub fn request<'d>(directive: &'d DirectiveRef<'d>) -> Result<Asked<'d>, DirectiveError<'d>>
    ensures exact { result ≡ request (plain directive.now) }
    ensures within { IfOk result (λ a. IsWithin a.request) }
{
    let name = directive.name();
    let Some(row) = row_of(name) else {
        return Err(DirectiveError::UnknownDirective(ScriptWord::new(name)));
    };
    if let Some(request) = short_request(row, directive) {
        let log_level = None;
        return Ok(Asked { request, log_level });
    }
    long_request(row, directive)
}
