//! A node's role.
//!
//! A node is a follower until it hears from no leader for its election timeout. Then it becomes a candidate, and a leader if a quorum votes
//! for it (Ongaro's thesis, section 3.3). With pre-vote it is a precandidate first, and asks whether it could win (section 9.6).

/// The role of a node in its term.
#[derive(Clone, Copy, PartialEq, Eq, Debug)]
pub enum Role {
    Follower,
    Precandidate,
    Candidate,
    Leader,
}
