//! The options that the manual has. Made of docs/SCRIPTS.md by `tests/repository/manual.py`.

/// The options but for `log-level`, in the order of the document's table: a directive, and the option's key.
#[rattlefmt::skip]
pub const KEYS: [(&[u8], &[u8]); 19] = [
    (b"add-nodes", b"voters"),
    (b"add-nodes", b"learners"),
    (b"add-nodes", b"index"),
    (b"add-nodes", b"content"),
    (b"add-nodes", b"inflight"),
    (b"add-nodes", b"prevote"),
    (b"add-nodes", b"checkquorum"),
    (b"add-nodes", b"step-down-on-removal"),
    (b"propose-conf-change", b"v1"),
    (b"propose-conf-change", b"transition"),
    (b"deliver-msgs", b"type"),
    (b"deliver-msgs", b"drop"),
    (b"deliver-msgs", b"from"),
    (b"deliver-msgs", b"skip"),
    (b"deliver-msgs", b"count"),
    (b"stabilize", b"rounds"),
    (b"set-randomized-election-timeout", b"timeout"),
    (b"transfer-leadership", b"from"),
    (b"transfer-leadership", b"to"),
];
