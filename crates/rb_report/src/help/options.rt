//! What the manual says of each option. Made of docs/SCRIPTS.md by `tests/repository/manual.py`.

/// An option's key, and what it does and takes, on one line.
#[rattlefmt::skip]
pub(crate) const OPTION_LINES: [(&[u8], &[u8]); 19] = [
    (b"voters", b"any number of ids, such as voters=(1,2), voters=1 or voters=(); repeats are ignored; no id may be both a voter and a learner"),
    (b"learners", b"any number of ids, such as voters=(1,2), voters=1 or voters=(); repeats are ignored; no id may be both a voter and a learner"),
    (b"index", b"a number from 2 to 1,000,000,000; needed with voters, learners or content"),
    (b"content", b"one value of 0 to 1,024 bytes; content= is the empty one"),
    (b"inflight", b"limits the appends with entries on their way to one node: a number from 1 to 256; 256 by default"),
    (b"prevote", b"before it campaigns, the node asks whether it would be elected: true or false; false by default"),
    (b"checkquorum", b"a leader steps down if a majority hasn't answered for a timeout; a node that has heard from its leader within three ticks ignores candidates, unless leadership is being transferred: true or false; false by default"),
    (b"step-down-on-removal", b"a leader steps down once it is no longer a voter: true or false; false by default"),
    (b"log-level", b"debug, info, warn, error, fatal or none, in any letter case; all other names are exact"),
    (b"v1", b"true or false; false by default"),
    (b"transition", b"auto, explicit or implicit; auto by default"),
    (b"type", b"takes only messages of these types: any number of message types, such as type=(MsgApp,MsgVote); also MsgUnreachable, of which there is never one"),
    (b"drop", b"any number of ids"),
    (b"from", b"a number from 1 to 32"),
    (b"skip", b"skips this many messages first: a number from 0 to 4,096; 0 by default"),
    (b"count", b"takes at most this many messages: a number from 1 to 4,096; all by default"),
    (b"rounds", b"a number from 1 to 1,000; 200 by default"),
    (b"timeout", b"a number from 1 to 1,000"),
    (b"to", b"a number from 1 to 32"),
];
