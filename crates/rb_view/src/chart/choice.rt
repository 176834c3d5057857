//! Which messages in flight a directive chooses.
//!
//! `deliver-msgs` may take only the messages of some types or of one sender, skip the first few, and take at most a number of them. All other
//! directives take every message. So the message that a node meets next is its first one after those that are skipped.

ghost use Rattle.std.specs.Prelude.{◌≡◌, ◌-◌, ◌<◌, IfSome, Some, length, slice_get};
ghost use Rattle.rb_script.specs.Tokens.{plain};
ghost use Rattle.rb_machine.specs.Pending.{is_meant};
ghost use Rattle.rb_view.specs.InFlight.{choice_of, mail_choice, met_from};

use rb_cluster::is_meant;
use rb_directive::{Asked, DeliverMsgs, MailChoice, Request, request};
use rb_message::Message;
use rb_script::DirectiveRef;

fn choice_of(request: Request<'_>) -> MailChoice
    ensures { result ≡ choice_of request.entry }
{
    match request {
        Request::DeliverMsgs(DeliverMsgs { choice, .. }) => choice,
        _ => MailChoice::all(),
    }
}

/// The messages that a directive chooses: all of them, unless it says which.
#[tactic(auto, unfolding(crate::specs::InFlight::mail_choice))]
pub(crate) fn mail_choice(directive: &DirectiveRef<'_>) -> MailChoice
    ensures { result ≡ mail_choice (plain directive.now) }
{
    match request(directive) {
        Ok(Asked { request, .. }) => choice_of(request),
        Err(_) => MailChoice::all(),
    }
}

/// The message at an index.
pub(crate) fn message_at(messages: &[Message], at: usize) -> &Message
    requires { at < length messages.now }
    ensures { slice_get messages.now at ≡ Some result.now }
{
    &messages[at]
}

/// The index of the message to a node that is met next.
pub(crate) fn met(messages: &[Message], id: u64, choice: &MailChoice) -> Option<usize>
    ensures position { result ≡ met_from (is_meant id choice.now) choice.now.skip 0 messages.now }
    ensures within { IfSome result (λ at. at < length messages.now) }
{
    let mut skip = choice.skip;
    for at in 0..messages.len() {
        if is_meant(id, choice, message_at(messages, at)) {
            if skip == 0 {
                return Some(at);
            }
            skip -= 1;
        }
    }
    None
}
