//! What a follower does: laws that ask that it learns.
ghost use Rattle.std.specs.Prelude.{◌≡◌, ◌≤◌, ◌++◌, ℕ, max, min, List, [], ◌∷◌, Contains, Ok};
ghost use Rattle.rb_raftlog.specs.Laws.{IsHint};
ghost use Rattle.rb_raftlog.specs.Log.{LogValue, last, term_at, answer};
ghost use Rattle.rb_raftlog.specs.declared.entry.Entry.{Entry};
ghost use Rattle.rb_raftlog.specs.declared.raft_log.Appended.TheVariants.{Refused, BelowCommit};
ghost use Rattle.rb_message.specs.Appends.{PlainAppend};
ghost use Rattle.rb_message.specs.Events.{event_at};
ghost use Rattle.rb_message.specs.declared.event.EventKind.TheVariants.{Conflict};
ghost use Rattle.rb_message.specs.declared.kind.MessageKind.TheVariants.{Append, AppendRefusal, Heartbeat};
ghost use Rattle.rb_message.specs.declared.message.Message.{Message};
ghost use Rattle.rb_node.specs.Node.{NodeStep, message};
ghost use Rattle.rb_node.specs.Step.{stepped};
ghost use Rattle.rb_calls.specs.Learning.{HasTaken, MayFollow};

/// A follower takes what its leader sends: an append that follows an entry of its log, at or past its commit, is in its log afterwards, and an answer
/// says so. It commits all that the leader tells, as far as its log goes.
pub fn followers_take_what_leaders_send()
    ensures append { (t : NodeStep) (m : Message) (append : PlainAppend) → m.kind ≡ Append append → MayFollow t.node m.term → t.node.commit ≤ append.prev → term_at t.node.log append.prev ≡ Ok append.prev_term → HasTaken t.node (stepped t m).node append m.from }
    ensures heartbeat { (t : NodeStep) (m : Message) (commit : ℕ) → m.kind ≡ Heartbeat commit → MayFollow t.node m.term → (stepped t m).node.commit ≡ max t.node.commit (min commit (last t.node.log)) }
{}

/// A follower whose log refuses an append says so, and hints at the greatest index that may be the leader's, by its term. If entries conflict with
/// committed ones, the first of them is shown, and nothing is answered.
pub fn refusals_are_answered()
    ensures refused { (t : NodeStep) (m : Message) (append : PlainAppend) (hint : ℕ) → m.kind ≡ Append append → MayFollow t.node m.term → answer t.node.log append.prev append.prev_term append.entries t.node.commit ≡ Refused hint → (stepped t m).node.waiting ≡ t.node.waiting ++ message t.node.id m.from (stepped t m).node.term (AppendRefusal append.prev hint) ∷ [] }
    ensures hint { (v : LogValue) (prev term commit hint : ℕ) (es : List Entry) → v.base ≤ prev → answer v prev term es commit ≡ Refused hint → IsHint v prev term hint }
    ensures conflict { (t : NodeStep) (m : Message) (append : PlainAppend) (index : ℕ) → m.kind ≡ Append append → MayFollow t.node m.term → answer t.node.log append.prev append.prev_term append.entries t.node.commit ≡ BelowCommit index → ((stepped t m).node.waiting ≡ t.node.waiting) × Contains (stepped t m).events (event_at t.node.id (Conflict index t.node.commit)) }
{}
