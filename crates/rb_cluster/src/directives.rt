//! What each directive does, as laws: it does to the node that it names what its name says, and nothing to any other.

ghost use Rattle.std.specs.Prelude.{◌≡◌, ◌⊎◌, ◌++◌, ℕ, false, true, List, [], ◌∷◌, Some, Contains, drop, filter};
ghost use Rattle.rb_script.specs.Directive.{PlainDirective};
ghost use Rattle.rb_directive.specs.declared.node_command.NodeCommand.TheVariants as commands;
ghost use Rattle.rb_directive.specs.declared.node_command_with_arg.NodeCommandWithArg.TheVariants as withs;
ghost use Rattle.rb_directive.specs.declared.requests.DeliverMsgs.{DeliverMsgs};
ghost use Rattle.rb_directive.specs.declared.requests.MailChoice.{MailChoice};
ghost use Rattle.rb_directive.specs.Changes.{input_words};
ghost use Rattle.rb_directive.specs.Requests.{all_mail};
ghost use Rattle.rb_directive.specs.declared.requests.ProposeConfChange.{ProposeConfChange};
ghost use Rattle.rb_directive.specs.declared.requests.Request.TheVariants as requests;
ghost use Rattle.rb_machine.specs.Changes.{words_of};
ghost use Rattle.rb_message.specs.declared.message.Message.{Message};
ghost use Rattle.rb_message.specs.declared.kind.MessageKind.TheVariants as kinds;
ghost use Rattle.rb_raftlog.specs.declared.entry.Body.TheVariants.{Payload, Change};
ghost use Rattle.rb_raftlog.specs.Log.{compacted, term_at};
ghost use Rattle.rb_node.specs.Calls.{called, leader_forgotten, reported};
ghost use Rattle.rb_node.specs.Campaigns.{campaigned};
ghost use Rattle.rb_node.specs.Compacting.{start_at};
ghost use Rattle.rb_node.specs.Node.{PlainNode, node_step, message, with_timeout};
ghost use Rattle.rb_node.specs.Readying.{ready, has_ready, advanced};
ghost use Rattle.rb_node.specs.Restarting.{restarted};
ghost use Rattle.rb_node.specs.Sends.{snapshot_of};
ghost use Rattle.rb_node.specs.Ticking.{ticked};
ghost use Rattle.rb_texts.specs.Items.{stopped};
ghost use Rattle.rb_machine.specs.Cluster.{Cluster, node_at, with_node};
ghost use Rattle.rb_machine.specs.Observations.{items_of};
ghost use Rattle.rb_machine.specs.Outcome.{outcome};
ghost use Rattle.rb_machine.specs.Pending.{is_meant, mail, other_mail, with_pending};
ghost use Rattle.rb_machine.specs.Rounds.{chosen, stabilized};
ghost use Rattle.rb_cluster.specs.Directives.{Does, addressed, elsewhere, first_few, after_all, HasRoom, IsIdle};

/// A directive calls the node that it names, as its name says, and changes nothing else. `tick-election` is three ticks.
pub fn directives_call_their_nodes()
    ensures campaign { (c : Cluster) (d : PlainDirective) (id : ℕ) (n : PlainNode) → Does c d (requests.NodeCommand commands.Campaign id) → node_at c id ≡ Some n → (outcome c d).cluster ≡ with_node c id (campaigned (node_step n []) false).node }
    ensures heartbeat { (c : Cluster) (d : PlainDirective) (id : ℕ) (n : PlainNode) → Does c d (requests.NodeCommand commands.TickHeartbeat id) → node_at c id ≡ Some n → (outcome c d).cluster ≡ with_node c id (ticked (node_step n [])).node }
    ensures election { (c : Cluster) (d : PlainDirective) (id : ℕ) (n : PlainNode) → Does c d (requests.NodeCommand commands.TickElection id) → node_at c id ≡ Some n → (outcome c d).cluster ≡ with_node c id (ticked (ticked (ticked (node_step n [])))).node }
    ensures forget { (c : Cluster) (d : PlainDirective) (id : ℕ) (n : PlainNode) → Does c d (requests.NodeCommand commands.ForgetLeader id) → node_at c id ≡ Some n → (outcome c d).cluster ≡ with_node c id (leader_forgotten n) }
    ensures propose { (c : Cluster) (d : PlainDirective) (id : ℕ) (payload : List ℕ) (n : PlainNode) → Does c d (requests.Propose id payload) → node_at c id ≡ Some n → (outcome c d).cluster ≡ with_node c id (called (node_step n []) (kinds.Proposal (Payload payload))).node }
    ensures timeout { (c : Cluster) (d : PlainDirective) (id ticks : ℕ) (n : PlainNode) → Does c d (requests.NodeCommandWithArg withs.SetRandomizedElectionTimeout id ticks) → node_at c id ≡ Some n → (outcome c d).cluster ≡ with_node c id (with_timeout n ticks) }
    ensures transfer { (c : Cluster) (d : PlainDirective) (from to : ℕ) (n : PlainNode) → Does c d (requests.NodeCommandWithArg withs.TransferLeadership from to) → node_at c from ≡ Some n → (outcome c d).cluster ≡ with_node c from (called (node_step n []) (kinds.TransferLeader to)).node }
    ensures unreachable { (c : Cluster) (d : PlainDirective) (id peer : ℕ) (n : PlainNode) → Does c d (requests.NodeCommandWithArg withs.ReportUnreachable id peer) → node_at c id ≡ Some n → (outcome c d).cluster ≡ with_node c id (reported n peer) }
    ensures change { (c : Cluster) (d : PlainDirective) (asked : ProposeConfChange) (n : PlainNode) → Does c d (requests.ProposeConfChange asked) → node_at c asked.id ≡ Some n → (outcome c d).cluster ≡ with_node c asked.id (called (node_step n []) (kinds.Proposal (Change asked.transition (words_of (input_words asked.inputs))))).node }
    ensures compact { (c : Cluster) (d : PlainDirective) (id index : ℕ) (n : PlainNode) → Does c d (requests.NodeCommandWithArg withs.Compact id index) → node_at c id ≡ Some n → (outcome c d).cluster ≡ with_node c id (record n { log = compacted n.log index (term_at n.log index); start = start_at n index }) }
    ensures restart { (c : Cluster) (d : PlainDirective) (id : ℕ) (n : PlainNode) → Does c d (requests.Restart (id ∷ [])) → node_at c id ≡ Some n → (outcome c d).cluster ≡ with_node c id (restarted n) }
{}

/// `deliver-msgs` of one node steps the messages to it, in the order in which they were sent and each once, and takes them out; with `drop=` they are
/// only taken out. All others stay as they are. So it is with the messages that are chosen, if some are.
pub fn messages_are_delivered_in_order()
    ensures delivered { (c : Cluster) (d : PlainDirective) (asked : DeliverMsgs) (id : ℕ) (n : PlainNode) → Does c d (requests.DeliverMsgs asked) → asked.nodes ≡ id ∷ [] → asked.drop ≡ [] → asked.choice ≡ all_mail → node_at c id ≡ Some n → (outcome c d).cluster ≡ with_pending (with_node c id (after_all n (addressed id c.pending))) (elsewhere id c.pending) }
    ensures dropped { (c : Cluster) (d : PlainDirective) (asked : DeliverMsgs) (id : ℕ) → Does c d (requests.DeliverMsgs asked) → asked.nodes ≡ [] → asked.drop ≡ id ∷ [] → asked.choice ≡ all_mail → (outcome c d).cluster ≡ with_pending c (elsewhere id c.pending) }
    ensures chosen { (c : Cluster) (d : PlainDirective) (asked : DeliverMsgs) (id : ℕ) (n : PlainNode) → Does c d (requests.DeliverMsgs asked) → asked.nodes ≡ id ∷ [] → asked.drop ≡ [] → node_at c id ≡ Some n → (outcome c d).cluster ≡ with_pending (with_node c id (after_all n (mail c.pending id asked.choice))) (other_mail c.pending id asked.choice) }
    ensures chosen_dropped { (c : Cluster) (d : PlainDirective) (asked : DeliverMsgs) (id : ℕ) → Does c d (requests.DeliverMsgs asked) → asked.nodes ≡ [] → asked.drop ≡ id ∷ [] → (outcome c d).cluster ≡ with_pending c (other_mail c.pending id asked.choice) }
{}

/// Of the messages to a node, of the types and from the sender, `skip=` leaves the first few, and `count=` chooses so many of those after them.
pub fn messages_are_chosen_by_number()
    ensures { (pending : List Message) (id : ℕ) (choice : MailChoice) → mail pending id choice ≡ first_few choice.count (drop choice.skip (filter (is_meant id choice) pending)) }
{}

/// `send-snapshot` puts the state of the first node that it names into flight to the second, in the first's term, and changes no node.
pub fn snapshots_are_sent_by_hand()
    ensures { (c : Cluster) (d : PlainDirective) (from to : ℕ) (n : PlainNode) → Does c d (requests.NodeCommandWithArg withs.SendSnapshot from to) → node_at c from ≡ Some n → HasRoom c (message from to n.term (kinds.Snapshot (snapshot_of n)) ∷ []) → (outcome c d).cluster ≡ with_pending c (c.pending ++ message from to n.term (kinds.Snapshot (snapshot_of n)) ∷ []) }
{}

/// `process-ready` puts what is ready into flight behind what is there, in its order, and the node advances. Nothing is done if nothing is ready.
pub fn readies_are_processed()
    ensures { (c : Cluster) (d : PlainDirective) (id : ℕ) (n : PlainNode) → Does c d (requests.ProcessReady (id ∷ [])) → node_at c id ≡ Some n → has_ready n ≡ true → HasRoom c (ready n).send → (outcome c d).cluster ≡ with_pending (with_node c id (advanced (node_step n [])).node) (c.pending ++ (ready n).send) }
{}

/// After `stabilize`, none of its nodes has anything ready, and no message to one is in flight; or it shows after how many rounds it stopped.
pub fn stabilizing_leaves_nothing_to_do()
    ensures { (ids : List ℕ) (rounds : ℕ) (c : Cluster) → ((id : ℕ) → Contains (chosen ids c.nodes) id → IsIdle (stabilized ids rounds c).cluster id) ⊎ Contains (items_of (stabilized ids rounds c).observed) (stopped rounds) }
{}
