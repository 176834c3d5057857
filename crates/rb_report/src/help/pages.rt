//! What the manual says of each directive. Made of docs/SCRIPTS.md by `tests/repository/manual.py`.

/// A page for each directive, in the order of the document's table: its name, its line of the overview, and the page.
#[rattlefmt::skip]
pub const PAGES: [(&[u8], &[u8], &[u8]); 20] = [
    (b"add-nodes", b"\
add-nodes n [voters=..] [learners=..] [index=..] [content=..] [inflight=..]\n\
\x20       [prevote=..] [checkquorum=..] [step-down-on-removal=..]\n\
\x20   adds nodes\n\
", b"\
add-nodes n [voters=..] [learners=..] [index=..] [content=..] [inflight=..]\n\
\x20       [prevote=..] [checkquorum=..] [step-down-on-removal=..]\n\
\n\
Adds nodes.\n\
\n\
Adds n nodes. Their ids follow those of the cluster, which are 1, 2 and so on.\n\
With index a log begins at a base of term 1 at that index: everything up to it\n\
is committed, applied and saved, and content is the result. Without index it\n\
begins at 0/0. The nodes are followers in term 0, without vote and leader, in\n\
the configuration of voters and learners. These lists may name any ids; a node\n\
in no configuration waits to be added to one.\n\
\n\
\x20 inflight\n\
\x20     limits the appends with entries on their way to one node\n\
\n\
\x20 prevote\n\
\x20     before it campaigns, the node asks whether it would be elected\n\
\n\
\x20 checkquorum\n\
\x20     a leader steps down if a majority hasn't answered for a timeout; a node\n\
\x20     that has heard from its leader within three ticks ignores candidates,\n\
\x20     unless leadership is being transferred\n\
\n\
\x20 step-down-on-removal\n\
\x20     a leader steps down once it is no longer a voter\n\
\n\
With prevote or checkquorum a node also answers a leader of an older term, so\n\
that this leader learns of the newer term.\n\
\n\
n\n\
\x20   a number from 1 to 32\n\
voters\n\
\x20   any number of ids, such as voters=(1,2), voters=1 or voters=(); repeats are\n\
\x20   ignored; no id may be both a voter and a learner\n\
learners\n\
\x20   any number of ids, such as voters=(1,2), voters=1 or voters=(); repeats are\n\
\x20   ignored; no id may be both a voter and a learner\n\
index\n\
\x20   a number from 2 to 1,000,000,000; needed with voters, learners or content\n\
content\n\
\x20   one value of 0 to 1,024 bytes; content= is the empty one\n\
inflight\n\
\x20   a number from 1 to 256; 256 by default\n\
prevote\n\
\x20   true or false; false by default\n\
checkquorum\n\
\x20   true or false; false by default\n\
step-down-on-removal\n\
\x20   true or false; false by default\n\
log-level\n\
\x20   debug, info, warn, error, fatal or none, in any letter case; all other names\n\
\x20   are exact\n\
\n\
For example:\n\
\n\
\x20   add-nodes 2 voters=(1,2) learners=3 index=10 content=ab\n\
\x20   ----\n\
\x20   INFO 1 started at 1/10 with voters=(1,2) learners=(3)\n\
\x20   INFO 2 started at 1/10 with voters=(1,2) learners=(3)\n\
\n\
raftbench-directives(7) explains the lines of outputs, and the errors.\n\
"),
    (b"campaign", b"\
campaign id\n\
\x20   a node campaigns\n\
", b"\
campaign id\n\
\n\
A node campaigns.\n\
\n\
The node campaigns, whatever its timeout: in the next term or, with prevote, by\n\
asking first. If it can't, it says why, with the first of these: leader (it\n\
leads), not a voter, snapshot pending (it has restored one that process-ready\n\
hasn't shown yet), change pending (a committed change isn't applied), term limit\n\
(terms end at 2,000,000,000).\n\
\n\
id\n\
\x20   a number from 1 to 32\n\
log-level\n\
\x20   debug, info, warn, error, fatal or none, in any letter case; all other names\n\
\x20   are exact\n\
\n\
For example:\n\
\n\
\x20   campaign 1\n\
\x20   ----\n\
\x20   INFO 1 became candidate at term 1\n\
\n\
raftbench-directives(7) explains the lines of outputs, and the errors.\n\
"),
    (b"propose", b"\
propose id payload\n\
\x20   proposes a payload at a node\n\
", b"\
propose id payload\n\
\n\
Proposes a payload at a node.\n\
\n\
Proposes a payload at a node. A leader appends it to its log, and sends it on as\n\
its views allow; a follower forwards it to its leader. The proposal is dropped\n\
if there is no leader, or if the leader isn't a member any more or is\n\
transferring leadership.\n\
\n\
id\n\
\x20   a number from 1 to 32\n\
payload\n\
\x20   a word of 1 to 1,024 bytes\n\
log-level\n\
\x20   debug, info, warn, error, fatal or none, in any letter case; all other names\n\
\x20   are exact\n\
\n\
For example:\n\
\n\
\x20   propose 1 a\n\
\x20   ----\n\
\x20   ok\n\
\n\
raftbench-directives(7) explains the lines of outputs, and the errors.\n\
"),
    (b"propose-conf-change", b"\
propose-conf-change id [v1=..] [transition=..]\n\
\x20   proposes a change of the configuration\n\
", b"\
propose-conf-change id [v1=..] [transition=..]\n\
\n\
Proposes a change of the configuration.\n\
\n\
Proposes a change of the configuration at a node, as propose does a payload. The\n\
words of the change are in the input, separated by blanks, on any number of\n\
lines:\n\
\n\
\x20 v4\n\
\x20     node 4 becomes a voter\n\
\n\
\x20 l4\n\
\x20     node 4 becomes a learner\n\
\n\
\x20 r4\n\
\x20     node 4 is removed\n\
\n\
\x20 u4\n\
\x20     nothing\n\
\n\
A change is an entry. Each node makes the change when it applies the entry. With\n\
transition=auto, one word is a single step, and several go through a joint\n\
configuration that the leader leaves automatically. implicit always goes through\n\
one that is left automatically, explicit through one that a further change has\n\
to leave. A change without words leaves a joint configuration. In a joint\n\
configuration, a voter that becomes a learner is listed as next until it is\n\
left.\n\
\n\
v1=true asks for one word and no transition but auto, and has no other effect.\n\
\n\
If a change isn't possible, a leader appends an empty entry instead, and says\n\
why: unapplied (an earlier change isn't applied yet), joint (the configuration\n\
is joint, and the change doesn't leave it), not joint (it isn't joint, and the\n\
change would leave it). Other faults show only when a change is applied: no\n\
voter would be left (NoVoters) or, in a broken cluster, the configuration is\n\
joint by then or isn't (AlreadyJoint, SimpleWhileJoint, NotJoint). Then the\n\
configuration stays.\n\
\n\
A line of output may become longer than a line of a script may be (65,536\n\
bytes). It is printed whole, but a script that expects it is refused.\n\
\n\
id\n\
\x20   a number from 1 to 32\n\
v1\n\
\x20   true or false; false by default\n\
transition\n\
\x20   auto, explicit or implicit; auto by default\n\
log-level\n\
\x20   debug, info, warn, error, fatal or none, in any letter case; all other names\n\
\x20   are exact\n\
\n\
For example:\n\
\n\
\x20   propose-conf-change 1\n\
\x20   v2 l3\n\
\x20   ----\n\
\x20   ok\n\
\n\
raftbench-directives(7) explains the lines of outputs, and the errors.\n\
"),
    (b"process-ready", b"\
process-ready id ..\n\
\x20   each node saves, applies and sends what it has ready\n\
", b"\
process-ready id ..\n\
\n\
Each node saves, applies and sends what it has ready.\n\
\n\
Each of the nodes, in the given order and as often as it is named, saves,\n\
restores, applies and sends what it has ready. That is printed first, then the\n\
events that follow: the changes among the applied entries, in order; the change\n\
that leaves a joint configuration automatically, if the node leads; then the\n\
node's own vote, and that its own entries are saved. Messages go to the end of\n\
the pending ones: first those it had to send, then its answers to votes and\n\
appends, which waited until it saved. At most 4,096 messages are pending;\n\
further ones are lost, with a line no room for ...\n\
\n\
id\n\
\x20   a number from 1 to 32\n\
log-level\n\
\x20   debug, info, warn, error, fatal or none, in any letter case; all other names\n\
\x20   are exact\n\
\n\
For example:\n\
\n\
\x20   process-ready 1 2 2\n\
\x20   ----\n\
\x20   1 has nothing ready\n\
\x20   2 ready\n\
\x20     hard term=1 vote=2 commit=10\n\
\x20     send 2->1 MsgVote term=1 last=1/10\n\
\x20     send 2->3 MsgVote term=1 last=1/10\n\
\x20   INFO 2 has MsgVoteResp granted from 2: pending\n\
\x20   2 has nothing ready\n\
\n\
raftbench-directives(7) explains the lines of outputs, and the errors.\n\
"),
    (b"deliver-msgs", b"\
deliver-msgs [id ..] [type=..] [drop=..] [from=..] [skip=..] [count=..]\n\
\x20   delivers pending messages to nodes, and drops some\n\
", b"\
deliver-msgs [id ..] [type=..] [drop=..] [from=..] [skip=..] [count=..]\n\
\n\
Delivers pending messages to nodes, and drops some.\n\
\n\
Delivers to each of the nodes, in the given order, its pending messages, in\n\
their order. Then it drops the messages for the nodes in drop. If there is\n\
nothing to deliver or drop, it prints no messages; so give it ids, or drop. A\n\
message stays pending until it is delivered or dropped, even if its receiver\n\
doesn't exist.\n\
\n\
The other options choose among the messages of each node, both to deliver and to\n\
drop:\n\
\n\
\x20 type\n\
\x20     takes only messages of these types\n\
\n\
\x20 from\n\
\x20     takes only messages of this sender\n\
\n\
\x20 skip\n\
\x20     skips this many messages first\n\
\n\
\x20 count\n\
\x20     takes at most this many messages\n\
\n\
id\n\
\x20   a number from 1 to 32\n\
type\n\
\x20   any number of message types, such as type=(MsgApp,MsgVote); also\n\
\x20   MsgUnreachable, of which there is never one\n\
drop\n\
\x20   any number of ids\n\
from\n\
\x20   a number from 1 to 32\n\
skip\n\
\x20   a number from 0 to 4,096; 0 by default\n\
count\n\
\x20   a number from 1 to 4,096; all by default\n\
log-level\n\
\x20   debug, info, warn, error, fatal or none, in any letter case; all other names\n\
\x20   are exact\n\
\n\
For example:\n\
\n\
\x20   deliver-msgs 2 drop=(3)\n\
\x20   ----\n\
\x20   deliver 1->2 MsgVote term=1 last=1/10\n\
\x20   INFO 2 became follower at term 1\n\
\x20   drop 1->3 MsgVote term=1 last=1/10\n\
\n\
raftbench-directives(7) explains the lines of outputs, and the errors.\n\
"),
    (b"stabilize", b"\
stabilize [id ..] [rounds=..]\n\
\x20   runs process-ready and deliver-msgs in turn until nothing is left\n\
", b"\
stabilize [id ..] [rounds=..]\n\
\n\
Runs process-ready and deliver-msgs in turn until nothing is left.\n\
\n\
Runs rounds over the given nodes, or over all nodes, always in ascending order.\n\
In a round, each node that has something ready processes it, then each gets its\n\
pending messages. It ends when a round finds nothing to do, or after rounds\n\
rounds; if something is left then, it prints stopped after <r> rounds.\n\
\n\
id\n\
\x20   a number from 1 to 32\n\
rounds\n\
\x20   a number from 1 to 1,000; 200 by default\n\
log-level\n\
\x20   debug, info, warn, error, fatal or none, in any letter case; all other names\n\
\x20   are exact\n\
\n\
For example:\n\
\n\
\x20   stabilize 1 2 rounds=2\n\
\x20   ----\n\
\x20   1 ready\n\
\x20     hard term=1 vote=1 commit=10\n\
\x20     send 1->2 MsgVote term=1 last=1/10\n\
\x20     send 1->3 MsgVote term=1 last=1/10\n\
\x20   INFO 1 has MsgVoteResp granted from 1: pending\n\
\x20   deliver 1->2 MsgVote term=1 last=1/10\n\
\x20   INFO 2 became follower at term 1\n\
\x20   2 ready\n\
\x20     hard term=1 vote=1 commit=10\n\
\x20     send 2->1 MsgVoteResp term=1 granted\n\
\x20   deliver 2->1 MsgVoteResp term=1 granted\n\
\x20   INFO 1 has MsgVoteResp granted from 2: won\n\
\x20   INFO 1 became leader at term 1\n\
\x20   stopped after 2 rounds\n\
\n\
raftbench-directives(7) explains the lines of outputs, and the errors.\n\
"),
    (b"tick-election", b"\
tick-election id\n\
\x20   ticks a node three times: an election timeout\n\
", b"\
tick-election id\n\
\n\
Ticks a node three times: an election timeout.\n\
\n\
Ticks the node three times, or once. At each tick a leader sends heartbeats.\n\
Every three ticks it gives up a transfer in progress (a new request restarts the\n\
count) and, with checkquorum, steps down if no majority has answered since it\n\
last looked. At any other node, ticks add up until it hears from a leader or\n\
grants a vote; a voter campaigns once they reach its timeout.\n\
\n\
id\n\
\x20   a number from 1 to 32\n\
log-level\n\
\x20   debug, info, warn, error, fatal or none, in any letter case; all other names\n\
\x20   are exact\n\
\n\
For example:\n\
\n\
\x20   tick-election 1\n\
\x20   ----\n\
\x20   ok\n\
\n\
raftbench-directives(7) explains the lines of outputs, and the errors.\n\
"),
    (b"tick-heartbeat", b"\
tick-heartbeat id\n\
\x20   ticks a node once\n\
", b"\
tick-heartbeat id\n\
\n\
Ticks a node once.\n\
\n\
Ticks the node three times, or once. At each tick a leader sends heartbeats.\n\
Every three ticks it gives up a transfer in progress (a new request restarts the\n\
count) and, with checkquorum, steps down if no majority has answered since it\n\
last looked. At any other node, ticks add up until it hears from a leader or\n\
grants a vote; a voter campaigns once they reach its timeout.\n\
\n\
id\n\
\x20   a number from 1 to 32\n\
log-level\n\
\x20   debug, info, warn, error, fatal or none, in any letter case; all other names\n\
\x20   are exact\n\
\n\
For example:\n\
\n\
\x20   tick-heartbeat 1\n\
\x20   ----\n\
\x20   INFO 1 became candidate at term 1\n\
\n\
raftbench-directives(7) explains the lines of outputs, and the errors.\n\
"),
    (b"set-randomized-election-timeout", b"\
set-randomized-election-timeout id timeout=..\n\
\x20   sets a node's election timeout\n\
", b"\
set-randomized-election-timeout id timeout=..\n\
\n\
Sets a node's election timeout.\n\
\n\
Sets the node's timeout, in ticks. It is 3 at first, and 3 again after each\n\
event became.\n\
\n\
id\n\
\x20   a number from 1 to 32\n\
timeout\n\
\x20   a number from 1 to 1,000\n\
log-level\n\
\x20   debug, info, warn, error, fatal or none, in any letter case; all other names\n\
\x20   are exact\n\
\n\
For example:\n\
\n\
\x20   set-randomized-election-timeout 1 timeout=4\n\
\x20   ----\n\
\x20   ok\n\
\n\
raftbench-directives(7) explains the lines of outputs, and the errors.\n\
"),
    (b"transfer-leadership", b"\
transfer-leadership from=.. to=..\n\
\x20   asks a node to transfer leadership to another\n\
", b"\
transfer-leadership from=.. to=..\n\
\n\
Asks a node to transfer leadership to another.\n\
\n\
Asks the node from to transfer leadership to to. A leader brings to up to date,\n\
then sends it MsgTimeoutNow, and to campaigns at once; until then the leader\n\
takes no proposals. A follower forwards the request to its leader. The request\n\
is ignored if there is no leader, or if to is not a voter, is the leader, or is\n\
already the target.\n\
\n\
from\n\
\x20   a number from 1 to 32\n\
to\n\
\x20   a number from 1 to 32\n\
log-level\n\
\x20   debug, info, warn, error, fatal or none, in any letter case; all other names\n\
\x20   are exact\n\
\n\
For example:\n\
\n\
\x20   transfer-leadership from=3 to=2\n\
\x20   ----\n\
\x20   DEBUG 3 ignored MsgTransferLeader from 3\n\
\n\
raftbench-directives(7) explains the lines of outputs, and the errors.\n\
"),
    (b"forget-leader", b"\
forget-leader id\n\
\x20   a follower forgets its leader\n\
", b"\
forget-leader id\n\
\n\
A follower forgets its leader.\n\
\n\
A follower forgets its leader until it hears from one. At any other node nothing\n\
happens.\n\
\n\
id\n\
\x20   a number from 1 to 32\n\
log-level\n\
\x20   debug, info, warn, error, fatal or none, in any letter case; all other names\n\
\x20   are exact\n\
\n\
For example:\n\
\n\
\x20   forget-leader 3\n\
\x20   ----\n\
\x20   ok\n\
\n\
raftbench-directives(7) explains the lines of outputs, and the errors.\n\
"),
    (b"report-unreachable", b"\
report-unreachable id id\n\
\x20   tells a leader that another node can't be reached\n\
", b"\
report-unreachable id id\n\
\n\
Tells a leader that another node can't be reached.\n\
\n\
If the first node leads and its view of the second is replicate, the view\n\
becomes probe. Otherwise nothing happens.\n\
\n\
id\n\
\x20   a number from 1 to 32\n\
id\n\
\x20   a number from 1 to 32\n\
log-level\n\
\x20   debug, info, warn, error, fatal or none, in any letter case; all other names\n\
\x20   are exact\n\
\n\
For example:\n\
\n\
\x20   report-unreachable 1 2\n\
\x20   ----\n\
\x20   ok\n\
\n\
raftbench-directives(7) explains the lines of outputs, and the errors.\n\
"),
    (b"send-snapshot", b"\
send-snapshot from to\n\
\x20   sends a snapshot by hand\n\
", b"\
send-snapshot from to\n\
\n\
Sends a snapshot by hand.\n\
\n\
Puts a MsgSnap with the first node's term and snapshot (its content,\n\
configuration and applied index) among the pending messages, for the second\n\
node, which need not exist. Neither has to lead.\n\
\n\
from\n\
\x20   a number from 1 to 32\n\
to\n\
\x20   a number from 1 to 32\n\
log-level\n\
\x20   debug, info, warn, error, fatal or none, in any letter case; all other names\n\
\x20   are exact\n\
\n\
For example:\n\
\n\
\x20   send-snapshot 1 2\n\
\x20   ----\n\
\x20   queue 1->2 MsgSnap term=1 snapshot=1/11\n\
\n\
raftbench-directives(7) explains the lines of outputs, and the errors.\n\
"),
    (b"compact", b"\
compact id index\n\
\x20   removes the beginning of a node's log\n\
", b"\
compact id index\n\
\n\
Removes the beginning of a node's log.\n\
\n\
Removes the node's log up to the index, which becomes its base, and prints the\n\
log as raft-log does. The index must be above the base, and applied.\n\
\n\
id\n\
\x20   a number from 1 to 32\n\
index\n\
\x20   a number from 0 to 2,000,000,000\n\
log-level\n\
\x20   debug, info, warn, error, fatal or none, in any letter case; all other names\n\
\x20   are exact\n\
\n\
For example:\n\
\n\
\x20   compact 1 11\n\
\x20   ----\n\
\x20   base=1/11 durable=12 commit=12 applied=12\n\
\x20   1/12 \"a\"\n\
\n\
raftbench-directives(7) explains the lines of outputs, and the errors.\n\
"),
    (b"restart", b"\
restart id ..\n\
\x20   each node crashes, and starts from what it saved\n\
", b"\
restart id ..\n\
\n\
Each node crashes, and starts from what it saved.\n\
\n\
Each of the nodes, in the given order, crashes and starts again from what it\n\
saved last: its term, vote, commit and log. What came since then is lost: a\n\
term, a vote, entries that are unsaved, a restored snapshot, messages that it\n\
hadn't sent. Nothing that it had sent depends on that, unless send-snapshot sent\n\
an unsaved term. The node is a follower without a leader. It has applied only\n\
what is at the base of its log, so its next process-ready applies committed\n\
entries again. Its options and all pending messages stay.\n\
\n\
id\n\
\x20   a number from 1 to 32\n\
log-level\n\
\x20   debug, info, warn, error, fatal or none, in any letter case; all other names\n\
\x20   are exact\n\
\n\
For example:\n\
\n\
\x20   restart 1\n\
\x20   ----\n\
\x20   INFO 1 restarted at term=1 vote=1 log=10..11 commit=11\n\
\n\
raftbench-directives(7) explains the lines of outputs, and the errors.\n\
"),
    (b"log-level", b"\
log-level level\n\
\x20   sets the lowest level that is shown\n\
", b"\
log-level level\n\
\n\
Sets the lowest level that is shown.\n\
\n\
Sets the cluster's level, and prints ok.\n\
\n\
level\n\
\x20   debug, info, warn, error, fatal or none, in any letter case; all other names\n\
\x20   are exact\n\
log-level\n\
\x20   debug, info, warn, error, fatal or none, in any letter case; all other names\n\
\x20   are exact\n\
\n\
For example:\n\
\n\
\x20   log-level ERROR\n\
\x20   ----\n\
\x20   ok\n\
\n\
raftbench-directives(7) explains the lines of outputs, and the errors.\n\
"),
    (b"raft-log", b"\
raft-log id\n\
\x20   prints a node's log\n\
", b"\
raft-log id\n\
\n\
Prints a node's log.\n\
\n\
Prints where a node's log begins and how far it is saved, committed and applied;\n\
then its entries, one a line.\n\
\n\
id\n\
\x20   a number from 1 to 32\n\
log-level\n\
\x20   debug, info, warn, error, fatal or none, in any letter case; all other names\n\
\x20   are exact\n\
\n\
For example:\n\
\n\
\x20   raft-log 1\n\
\x20   ----\n\
\x20   base=1/10 durable=11 commit=11 applied=11\n\
\x20   1/11 \"\"\n\
\x20   1/12 \"a\" unsaved\n\
\n\
raftbench-directives(7) explains the lines of outputs, and the errors.\n\
"),
    (b"status", b"\
status id\n\
\x20   prints a node's configuration, and a leader's view of each member\n\
", b"\
status id\n\
\n\
Prints a node's configuration, and a leader's view of each member.\n\
\n\
Prints a node's configuration and, if it leads, its view of each member, by\n\
ascending id: up to where the member is known to have the leader's log (match),\n\
what it is sent next (next), and how many appends with entries are on their way\n\
to it.\n\
\n\
\x20 probe\n\
\x20     doesn't know where the logs agree: it sends one append, then waits for an\n\
\x20     answer\n\
\n\
\x20 replicate\n\
\x20     sends new entries at once, as long as the window has room\n\
\n\
\x20 snapshot\n\
\x20     has sent a snapshot, and sends nothing until it is answered\n\
\n\
id\n\
\x20   a number from 1 to 32\n\
log-level\n\
\x20   debug, info, warn, error, fatal or none, in any letter case; all other names\n\
\x20   are exact\n\
\n\
For example:\n\
\n\
\x20   status 1\n\
\x20   ----\n\
\x20   voters=(1,2) learners=(3)\n\
\x20   1 replicate match=11 next=12 inflight=0\n\
\x20   2 replicate match=11 next=13 inflight=1\n\
\x20   3 probe match=0 next=11 inflight=0 waiting\n\
\n\
raftbench-directives(7) explains the lines of outputs, and the errors.\n\
"),
    (b"raft-state", b"\
raft-state\n\
\x20   prints a line for each node\n\
", b"\
raft-state\n\
\n\
Prints a line for each node.\n\
\n\
Prints a line for each node, by ascending id; ok if there are none.\n\
\n\
log-level\n\
\x20   debug, info, warn, error, fatal or none, in any letter case; all other names\n\
\x20   are exact\n\
\n\
For example:\n\
\n\
\x20   raft-state\n\
\x20   ----\n\
\x20   1 follower term=2 vote=2 lead=2 commit=12 applied=12 content=0:\"\"\n\
\x20   2 leader term=2 vote=2 lead=2 commit=12 applied=12 content=0:\"\"\n\
\x20   3 follower term=2 vote=2 lead=2 commit=12 applied=12 content=0:\"\"\n\
\n\
raftbench-directives(7) explains the lines of outputs, and the errors.\n\
"),
];

/// What is below the overview.
#[rattlefmt::skip]
pub(crate) const CLOSING: &[u8] = b"\
\n\
Each directive also takes log-level=.., which sets the level for it alone.\n\
`raftbench directives NAME` explains one directive.\n\
";
