//! Votes, campaigns, following and ticks, case by case.

use super::before::Before;
use super::moves::{ALONE, CHECKS, Move, NO_VOTER, PRE_VOTE, SOUNDS_OUT, START, Says, Start};
use super::seen::{CANDIDATE, Case, FOLLOWER, LEADER, PRECANDIDATE, Said, Seen, Told, cases};
use rb_vocab::{Transition, WordKind};

/// It voted for node 2 in term 2.
pub const VOTED: &[Move] = &[Move::Get(2, 2, Says::Vote(1, 10, false)), Move::Advance];

/// Its log ends with 2/11, and it follows nobody.
pub const HOLDS: &[Move] = &[
    Move::Get(2, 2, Says::Append(1, 10, 10, 1)),
    Move::Advance,
    Move::ForgetLeader,
];

pub const VOTES: [Case; 10] = cases! {
    // a second candidate of a term gets no vote, the first one gets it again, and so does one of the next term
    START, Voted, Nothing, Move::Get(3, 2, Says::Vote(1, 10, false)) => FOLLOWER 2, RefusedVote 1, VoteRefused 2 0, 0 1;
    START, Voted, Nothing, Move::Get(2, 2, Says::Vote(1, 10, false)) => FOLLOWER 2, Nothing 0, VoteGranted 2 0, 0 1;
    START, Voted, Nothing, Move::Get(3, 3, Says::Vote(1, 10, false)) => FOLLOWER 3, Became 1, VoteGranted 3 0, 0 1;
    // a stale candidate gets none: its last term is earlier, however long its log; or it is as late, and its log shorter
    START, Holds, Nothing, Move::Get(3, 3, Says::Vote(1, 12, false)) => FOLLOWER 3, Became 2, VoteRefused 3 0, 0 1;
    START, Holds, Nothing, Move::Get(3, 3, Says::Vote(2, 10, false)) => FOLLOWER 3, Became 2, VoteRefused 3 0, 0 1;
    START, Holds, Nothing, Move::Get(3, 3, Says::Vote(2, 11, false)) => FOLLOWER 3, Became 1, VoteGranted 3 0, 0 1;
    START, Holds, Nothing, Move::Get(3, 3, Says::Vote(3, 5, false)) => FOLLOWER 3, Became 1, VoteGranted 3 0, 0 1;
    // nor a yes, which is then of the node's own term
    START, Holds, Nothing, Move::Get(3, 3, Says::PreVote(1, 12)) => FOLLOWER 2, RefusedVote 1, PreVoteRefused 2 0, 0 1;
    // whom it voted for may ask again in the same term, and others may not
    START, Voted, Nothing, Move::Get(2, 2, Says::PreVote(1, 10)) => FOLLOWER 2, Nothing 0, PreVoteGranted 2 0, 0 1;
    START, Voted, Nothing, Move::Get(3, 2, Says::PreVote(1, 10)) => FOLLOWER 2, RefusedVote 1, PreVoteRefused 2 0, 0 1;
};

/// Stands for term 3 and has a yes of its own, and a no of node 2.
pub const REFUSED_ONCE: &[Move] = &[
    Move::Get(2, 2, Says::Heartbeat(0)),
    Move::Advance,
    Move::Campaign,
    Move::Advance,
    Move::Get(2, 3, Says::VoteAnswer(false)),
];

/// Led alone, and gave way before the change at 12 was applied.
pub const CHANGE_WAITS: &[Move] = &[
    Move::Campaign,
    Move::Advance,
    Move::Advance,
    Move::Change(Transition::Auto, WordKind::Voter, 2),
    Move::Advance,
    Move::Get(2, 9, Says::HeartbeatAnswer),
];

/// In the last term that there is.
pub const LAST_TERM: &[Move] = &[
    Move::Get(2, 2_000_000_000, Says::Heartbeat(0)),
    Move::Advance,
];

/// In the term before it.
pub const LAST_TERM_BUT_ONE: &[Move] = &[
    Move::Get(2, 1_999_999_999, Says::Heartbeat(0)),
    Move::Advance,
];

pub const CAMPAIGNS: [Case; 18] = cases! {
    START, Leads, Nothing, Move::Campaign => LEADER 3, CannotAsLeader 1, Nothing 0 0, 0 0;
    NO_VOTER, Nothing, Nothing, Move::Campaign => FOLLOWER 0, CannotAsNoVoter 1, Nothing 0 0, 0 0;
    START, Restores, Nothing, Move::Campaign => FOLLOWER 2, CannotForSnapshot 1, Accepted 2 20, 0 1;
    ALONE, ChangeWaits, Nothing, Move::Campaign => FOLLOWER 9, CannotForChange 1, Nothing 0 0, 0 0;
    START, LastTerm, Nothing, Move::Campaign => FOLLOWER 2_000_000_000, CannotForTerm 1, Nothing 0 0, 0 0;
    SOUNDS_OUT, LastTerm, Nothing, Move::Campaign => FOLLOWER 2_000_000_000, CannotForTerm 1, Nothing 0 0, 0 0;
    START, LastTermButOne, Nothing, Move::Campaign => CANDIDATE 2_000_000_000, Became 1, VoteGranted 2_000_000_000 0, 2 1;
    SOUNDS_OUT, LastTermButOne, Nothing, Move::Campaign => PRECANDIDATE 1_999_999_999, Became 1, PreVoteGranted 2_000_000_000 0, 2 1;
    START, Follows, Nothing, Move::Campaign => CANDIDATE 3, Became 1, VoteGranted 3 0, 2 1;
    // the question is of the next term, and the node stays in its own
    SOUNDS_OUT, Follows, Nothing, Move::Campaign => PRECANDIDATE 2, Became 1, PreVoteGranted 3 0, 2 1;
    // its own vote counts once it is durable
    ALONE, Nothing, Nothing, Move::Campaign => CANDIDATE 1, Became 1, VoteGranted 1 0, 0 1;
    ALONE, Campaigns, Nothing, Move::Advance => LEADER 1, Won 2, Accepted 1 11, 0 1;
    // two of three refuse; of one sender the first answer counts; no answer of a stranger does
    START, RefusedOnce, Nothing, Move::Get(3, 3, Says::VoteAnswer(false)) => FOLLOWER 3, Lost 2, Nothing 0 0, 0 0;
    START, RefusedOnce, Nothing, Move::Get(2, 3, Says::VoteAnswer(true)) => CANDIDATE 3, Pending 1, Nothing 0 0, 0 0;
    START, Stands, Nothing, Move::Get(9, 3, Says::VoteAnswer(true)) => CANDIDATE 3, Pending 1, Nothing 0 0, 0 0;
    SOUNDS_OUT, Stands, Nothing, Move::Get(9, 2, Says::PreVoteAnswer(false)) => PRECANDIDATE 2, Pending 1, Nothing 0 0, 0 0;
    // a yes is of the term that was asked for
    SOUNDS_OUT, Stands, Nothing, Move::Get(2, 3, Says::PreVoteAnswer(true)) => CANDIDATE 3, Won 2, VoteGranted 3 0, 2 1;
    // and a no of the term of who refuses
    SOUNDS_OUT, Stands, Nothing, Move::Get(2, 4, Says::PreVoteAnswer(false)) => FOLLOWER 4, Became 2, Nothing 0 0, 0 0;
};

/// Entry 2/11 is committed and applied, and term 3 has begun.
pub const COMMITTED: &[Move] = &[
    Move::Get(2, 2, Says::Append(1, 10, 11, 1)),
    Move::Get(2, 3, Says::Heartbeat(0)),
    Move::Advance,
];

/// Its log ends with 2/12, and nothing of it is committed.
pub const HOLDS_TWO: &[Move] = &[Move::Get(2, 2, Says::Append(1, 10, 10, 2)), Move::Advance];

pub const FOLLOWING: [Case; 11] = cases! {
    // an entry of another term at or below commit is told, and not answered; one of the same term is answered with the commit
    START, Committed, Nothing, Move::Get(2, 3, Says::Append(1, 10, 11, 1)) => FOLLOWER 3, Conflict 1, Nothing 0 0, 0 0;
    START, Committed, Nothing, Move::Get(2, 3, Says::Append(1, 10, 11, 0)) => FOLLOWER 3, Nothing 0, Accepted 3 11, 0 1;
    // what isn't held is refused, with the last index of an entry that may agree
    START, Follows, Nothing, Move::Get(2, 2, Says::Append(2, 15, 10, 1)) => FOLLOWER 2, Nothing 0, Refused 2 10, 0 1;
    START, HoldsTwo, Nothing, Move::Get(2, 2, Says::Append(1, 12, 10, 0)) => FOLLOWER 2, Nothing 0, Refused 2 10, 0 1;
    // what gives way is told, after the new term; what is sent again takes nothing away
    START, HoldsTwo, Nothing, Move::Get(3, 3, Says::Append(2, 11, 10, 1)) => FOLLOWER 3, Became 2, Accepted 3 12, 0 1;
    START, HoldsTwo, Nothing, Move::Get(2, 2, Says::Append(1, 10, 10, 1)) => FOLLOWER 2, Nothing 0, Accepted 2 11, 0 1;
    // a snapshot that is behind the commit, and one that is held
    START, Follows, Nothing, Move::Get(2, 2, Says::Snapshot(1, 9)) => FOLLOWER 2, Nothing 0, Accepted 2 10, 0 1;
    START, HoldsTwo, Nothing, Move::Get(2, 2, Says::Snapshot(2, 11)) => FOLLOWER 2, Nothing 0, Accepted 2 11, 0 1;
    // without a leader nothing is sent on
    START, Nothing, Nothing, Move::Get(2, 0, Says::Payload) => FOLLOWER 0, DroppedProposal 1, Nothing 0 0, 0 0;
    START, Nothing, Nothing, Move::Get(2, 0, Says::TransferTo(3)) => FOLLOWER 0, Ignored 1, Nothing 0 0, 0 0;
    START, Holds, Nothing, Move::Propose(b'x') => FOLLOWER 2, DroppedProposal 1, Nothing 0 0, 0 0;
};

/// It has heard of node 2, and two ticks have passed.
pub const HEARS: &[Move] = &[
    Move::Get(2, 3, Says::HeartbeatAnswer),
    Move::Tick,
    Move::Tick,
    Move::Advance,
];

pub const HEARS_NO_MORE: &[Move] = &[
    Move::Get(2, 3, Says::HeartbeatAnswer),
    Move::Tick,
    Move::Tick,
    Move::Tick,
    Move::Tick,
    Move::Tick,
    Move::Advance,
];

pub const HEARD_NOBODY: &[Move] = &[Move::Tick, Move::Tick, Move::Advance];

pub const HANDS_OVER: &[Move] = &[Move::Transfer(3), Move::Tick, Move::Tick, Move::Advance];

pub const HEARD_LONG_AGO: &[Move] = &[
    Move::Get(2, 2, Says::Heartbeat(0)),
    Move::Advance,
    Move::SetTimeout(10),
    Move::Tick,
    Move::Tick,
    Move::Tick,
];

pub const TICKS: [Case; 18] = cases! {
    START, Nothing, Nothing, Move::Tick => FOLLOWER 0, Nothing 0, Nothing 0 0, 0 0;
    START, TwoTicks, Nothing, Move::Tick => CANDIDATE 1, Became 1, VoteGranted 1 0, 2 1;
    START, TimeoutOfOne, Nothing, Move::Tick => CANDIDATE 1, Became 1, VoteGranted 1 0, 2 1;
    START, TwoTicks, TimeoutOfThree, Move::Tick => CANDIDATE 1, Became 1, VoteGranted 1 0, 2 1;
    NO_VOTER, TwoTicks, Nothing, Move::Tick => FOLLOWER 0, Nothing 0, Nothing 0 0, 0 0;
    // who can't campaign tries again once its timeout has passed again
    START, LastTerm, TwoTicks, Move::Tick => FOLLOWER 2_000_000_000, CannotForTerm 1, Nothing 0 0, 0 0;
    START, LastTerm, ThreeTicks, Move::Tick => FOLLOWER 2_000_000_000, Nothing 0, Nothing 0 0, 0 0;
    // a leader beats at each tick, and tells no more of the commit than a follower is known to hold
    START, Leads, Nothing, Move::Tick => LEADER 3, Nothing 0, Heartbeat 3 0, 2 0;
    START, Leads, Commits, Move::Tick => LEADER 3, Nothing 0, Heartbeat 3 11, 2 0;
    START, Leads, HeardNobody, Move::Tick => LEADER 3, Nothing 0, Heartbeat 3 0, 2 0;
    START, Leads, HandsOver, Move::Tick => LEADER 3, TransferEnds 1, Heartbeat 3 0, 2 0;
    // where it checks its quorum it steps down once nobody was heard of for three ticks
    CHECKS, Leads, HeardNobody, Move::Tick => FOLLOWER 3, LostQuorum 2, Nothing 0 0, 0 0;
    CHECKS, Leads, Hears, Move::Tick => LEADER 3, Nothing 0, Heartbeat 3 0, 2 0;
    CHECKS, Leads, HearsNoMore, Move::Tick => FOLLOWER 3, LostQuorum 2, Nothing 0 0, 0 0;
    // a leader hears itself, whatever it is made to forget
    CHECKS, Leads, ForgetsLeader, Move::Get(3, 4, Says::Vote(3, 11, false)) => LEADER 3, Ignored 1, Nothing 0 0, 0 0;
    CHECKS, Leads, Hears, Move::Get(3, 4, Says::Vote(3, 11, false)) => LEADER 3, Ignored 1, Nothing 0 0, 0 0;
    // and gives an ear to candidates again once it hasn't heard of its leader for three ticks, or has forgotten it
    CHECKS, HeardLongAgo, Nothing, Move::Get(3, 3, Says::Vote(1, 10, false)) => FOLLOWER 3, Became 1, VoteGranted 3 0, 0 1;
    CHECKS, Holds, Nothing, Move::Get(3, 3, Says::Vote(2, 11, false)) => FOLLOWER 3, Became 1, VoteGranted 3 0, 0 1;
};

/// The only voter, two entries before the last index that there is.
const NEARLY_FULL: Start = Start {
    index: 1_999_999_998,
    ..ALONE
};

/// The only voter, at the last index.
const FULL: Start = Start {
    index: 2_000_000_000,
    ..ALONE
};

const FULL_SOUNDS_OUT: Start = Start {
    options: PRE_VOTE,
    ..FULL
};

/// Leads, and its first entry is durable.
pub const LEADS_ALONE: &[Move] = &[Move::Campaign, Move::Advance, Move::Advance];

/// Leads, and the last entry that there can be is durable.
pub const FILLS_UP: &[Move] = &[
    Move::Campaign,
    Move::Advance,
    Move::Advance,
    Move::Propose(b'c'),
    Move::Advance,
    Move::Advance,
];

pub const FULL_LOGS: [Case; 6] = cases! {
    // the last two entries that there can be, and none after them
    NEARLY_FULL, Campaigns, Nothing, Move::Advance => LEADER 1, Won 2, Accepted 1 1_999_999_999, 0 1;
    NEARLY_FULL, LeadsAlone, Nothing, Move::Propose(b'c') => LEADER 1, Nothing 0, Accepted 1 2_000_000_000, 0 1;
    NEARLY_FULL, FillsUp, Nothing, Move::Propose(b'd') => LEADER 1, AppendsNothing 1, Nothing 0 0, 0 0;
    NEARLY_FULL, FillsUp, Nothing, Move::Leave => LEADER 1, AppendsNothing 1, Nothing 0 0, 0 0;
    // who comes to lead a full log has no entry of its own there
    FULL, Campaigns, Nothing, Move::Advance => LEADER 1, Won 3, Nothing 0 0, 0 0;
    FULL_SOUNDS_OUT, CampaignsAndSaves, Nothing, Move::Advance => LEADER 1, Won 3, Nothing 0 0, 0 0;
};
