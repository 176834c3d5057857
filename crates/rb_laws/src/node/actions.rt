//! What a node does: these laws ask that something happens, where the others say what never does.
ghost use Rattle.std.specs.Prelude.{◌≡◌, ◌+◌, ◌-◌, ◌++◌, ◌<◌, ◌≤◌, ℕ, true, List, [], ◌∷◌, Contains, Some, slice_get};
ghost use Rattle.rb_raftlog.specs.declared.entry.Body.{Body};
ghost use Rattle.rb_raftlog.specs.declared.entry.Body.TheVariants.{Payload, Change};
ghost use Rattle.rb_raftlog.specs.Log.{last, own, entries_after};
ghost use Rattle.rb_tracker.specs.Progresses.{PlainProgress, sent, snapshotting};
ghost use Rattle.rb_tracker.specs.declared.progress.ProgressState.TheVariants.{Probe, Snapshot};
ghost use Rattle.rb_vocab.specs.declared.change.Transition.{Transition};
ghost use Rattle.rb_vocab.specs.declared.change.Word.{Word};
ghost use Rattle.rb_message.specs.declared.kind.MessageKind.TheVariants as kinds;
ghost use Rattle.rb_message.specs.declared.kind.MessageKind.TheVariants.{Proposal};
ghost use Rattle.rb_message.specs.declared.message.Message.{Message};
ghost use Rattle.rb_message.specs.declared.role.Role.TheVariants.{Follower};
ghost use Rattle.rb_node.specs.declared.sends.SendReason.TheVariants.{Tell};
ghost use Rattle.rb_node.specs.Leading.{leading};
ghost use Rattle.rb_node.specs.Node.{PlainNode, NodeStep, with_node, message};
ghost use Rattle.rb_node.specs.Readying.{ready, advanced};
ghost use Rattle.rb_node.specs.Sends.{append_of, append_broadcast, snapshot_of, sends};
ghost use Rattle.rb_node.specs.Step.{stepped};
ghost use Rattle.rb_laws.specs.Outgoing.{to_others, to_itself};
ghost use Rattle.rb_laws.specs.Proposals.{TakesProposals, MayChange};
ghost use Rattle.rb_laws.specs.Sending.{MaySendTo, IsFirstView};

/// A payload that a leader is asked for is its next entry, of its term and unchanged, unless it hands the lead over, is no member, or its log is
/// full. So is a change, if each earlier one is applied, and if it leaves a joint configuration or is made of one that isn't joint; an empty entry
/// takes the place of any other change.
pub fn proposals_are_appended()
    ensures payload { (t : NodeStep) (m : Message) (bytes : List ℕ) → TakesProposals t.node → m.kind ≡ Proposal (Payload bytes) → (stepped t m).node.log ≡ own t.node.log (record { term = t.node.term; body = Payload bytes }) }
    ensures change { (t : NodeStep) (m : Message) (transition : Transition) (words : List Word) → TakesProposals t.node → MayChange t.node words → m.kind ≡ Proposal (Change transition words) → ((stepped t m).node.log ≡ own t.node.log (record { term = t.node.term; body = Change transition words })) × ((stepped t m).node.pending_change ≡ last t.node.log + 1) }
    ensures empty { (t : NodeStep) (m : Message) (transition : Transition) (words : List Word) → TakesProposals t.node → (MayChange t.node words → ⊥) → m.kind ≡ Proposal (Change transition words) → (stepped t m).node.log ≡ own t.node.log (record { term = t.node.term; body = Payload [] }) }
{}

/// A follower that knows a leader passes a proposal on to it, unchanged, and does nothing else.
pub fn proposals_are_passed_on()
    ensures { (t : NodeStep) (m : Message) (body : Body) → m.kind ≡ Proposal body → t.node.role ≡ Follower → 0 < t.node.lead → (stepped t m).node ≡ record t.node { sent = t.node.sent ++ message t.node.id t.node.lead 0 (Proposal body) ∷ [] } }
{}

/// With a ready go out the messages that were sent, and then the answers that waited for others, in that order. They go out once: an advance
/// leaves the node as if it had had nothing to put out. It takes in its answers to itself alone.
pub fn messages_go_out_once()
    ensures out { (n : PlainNode) → (ready n).send ≡ n.sent ++ to_others n.id n.waiting }
    ensures once { (t : NodeStep) (sent waiting : List Message) → to_itself t.node.id waiting ≡ to_itself t.node.id t.node.waiting → advanced (with_node t (record t.node { sent = sent; waiting = waiting })) ≡ advanced t }
{}

/// A leader sends another member, unless a probe or a snapshot to it is on its way or its window is full, the entries that its view lacks, or a snapshot
/// if the log begins later; what goes to all goes to each so. A probe then waits, and a snapshot is awaited by its index. Who begins to lead probes
/// each other member from the end of its log on.
pub fn members_are_sent_what_they_lack()
    ensures entries { (n : PlainNode) (to : ℕ) (view : PlainProgress) → MaySendTo n to view → n.log.base ≤ view.next - 1 → (sends n to Tell).sent ≡ n.sent ++ message n.id to n.term (append_of n view.next (entries_after n.log (view.next - 1))) ∷ [] }
    ensures all { (n : PlainNode) (to : ℕ) (view : PlainProgress) → MaySendTo n to view → n.log.base ≤ view.next - 1 → Contains (append_broadcast n).sent (message n.id to n.term (append_of n view.next (entries_after n.log (view.next - 1)))) }
    ensures snapshot { (n : PlainNode) (to : ℕ) (view : PlainProgress) → MaySendTo n to view → view.next - 1 < n.log.base → (sends n to Tell).sent ≡ n.sent ++ message n.id to n.term (kinds.Snapshot (snapshot_of n)) ∷ [] }
    ensures waits { (p : PlainProgress) (last : ℕ) → p.state ≡ Probe → (sent p last).waiting ≡ true }
    ensures awaits { (p : PlainProgress) (index : ℕ) → ((snapshotting p index).state ≡ Snapshot) × ((snapshotting p index).pending ≡ index) }
    ensures first { (n : PlainNode) (k : ℕ) (e : ℕ × PlainProgress) → slice_get (leading n).tracker.views k ≡ Some e → (e.0 ≡ n.id → ⊥) → IsFirstView n e.1 }
{}
