//! Names that other tools and talk about Raft have for what directives do.

/// A name, and a line on what does this in a script.
#[rattlefmt::skip]
pub(crate) const OTHER_NAMES: [(&[u8], &[u8]); 16] = [
    (b"deliver", b"deliver-msgs 2 delivers the messages for node 2"),
    (b"receive", b"deliver-msgs 2 delivers the messages for node 2"),
    (b"drop", b"deliver-msgs drop=2 drops the messages for node 2"),
    (b"tick", b"tick-heartbeat 1 ticks node 1 once, tick-election 1 three times"),
    (b"timeout", b"tick-election 1 ticks node 1 three times, campaign 1 lets it campaign at once"),
    (b"elect", b"campaign 1 lets node 1 campaign"),
    (b"crash", b"these nodes can't crash, only your own can: docs/OWN-NODES.md"),
    (b"kill", b"these nodes can't crash, only your own can: docs/OWN-NODES.md"),
    (b"stop", b"leave node 3 out to stop it: stabilize 1 2"),
    (b"pause", b"leave node 3 out to stop it: stabilize 1 2"),
    (b"partition", b"to cut node 3 off, run the others, stabilize 1 2, and then deliver-msgs drop=3"),
    (b"isolate", b"to cut node 3 off, run the others, stabilize 1 2, and then deliver-msgs drop=3"),
    (b"disconnect", b"to cut node 3 off, run the others, stabilize 1 2, and then deliver-msgs drop=3"),
    (b"heal", b"stabilize runs all nodes, stabilize 1 2 these two alone"),
    (b"run", b"stabilize runs all nodes, stabilize 1 2 these two alone"),
    (b"snapshot", b"send-snapshot 1 2 sends node 2 a snapshot of node 1; compact 1 11 removes the log of node 1 up to 11"),
];
