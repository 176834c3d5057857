//! What directives of a script are refused for, and what they tell.
ghost use Rattle.std.specs.Prelude.{◌≡◌, ℕ, None, Some, Contains};
ghost use Rattle.rb_directive.specs.declared.requests.AddNodes.{AddNodes};
ghost use Rattle.rb_directive.specs.declared.requests.MailChoice.{MailChoice};
ghost use Rattle.rb_directive.specs.declared.node_command_with_arg.NodeCommandWithArg.TheVariants as withs;
ghost use Rattle.rb_directive.specs.declared.requests.Request.TheVariants as requests;
ghost use Rattle.rb_message.specs.declared.message.Message.{Message};
ghost use Rattle.rb_node.specs.Node.{PlainNode};
ghost use Rattle.rb_texts.specs.Items.{moved};
ghost use Rattle.rb_texts.specs.declared.item.Verb.TheVariants as verbs;
ghost use Rattle.rb_machine.specs.Cluster.{Cluster, node_at};
ghost use Rattle.rb_machine.specs.Deliveries.{delivered, dropped};
ghost use Rattle.rb_machine.specs.Observations.{items_of};
ghost use Rattle.rb_machine.specs.Outcome.{own_fault};
ghost use Rattle.rb_machine.specs.Pending.{mail};
ghost use Rattle.rb_laws.specs.Scripts.{MayBeAdded, MayBeCompacted};

/// What isn't refused may be done: nodes that are added aren't too many, and start at an index above 1, or with nothing; a log is compacted up to an
/// index that it has, and that is applied and durable.
pub fn what_is_done_may_be_done()
    ensures added { (asked : AddNodes) (c : Cluster) → own_fault (requests.AddNodes asked) c ≡ None → MayBeAdded asked c.nodes }
    ensures compacted { (id index : ℕ) (c : Cluster) (n : PlainNode) → own_fault (requests.NodeCommandWithArg withs.Compact id index) c ≡ None → node_at c id ≡ Some n → MayBeCompacted n index }
{}

/// Each message that is delivered is shown as delivered, and each that is dropped as dropped.
pub fn moved_messages_are_shown()
    ensures delivered { (choice : MailChoice) (c : Cluster) (id : ℕ) (m : Message) → Contains (mail c.pending id choice) m → Contains (items_of (delivered choice c id).observed) (moved verbs.Deliver m) }
    ensures dropped { (choice : MailChoice) (c : Cluster) (id : ℕ) (m : Message) → Contains (mail c.pending id choice) m → Contains (items_of (dropped choice c id).observed) (moved verbs.Drop m) }
{}
