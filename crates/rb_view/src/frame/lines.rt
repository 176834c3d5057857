//! Code of a page. Which line of a directive's output shows which event. Made of assets/lines.js by `tests/page/assemble.py sources`.

/// The code.
#[rattlefmt::skip]
pub(crate) const LINES: &[u8] = b"\
\n\
// Which line of a directive's output shows which event. A level hides events, so not each event has a line; both are in one order.\n\
\n\
\n\
\n\
const VERBS = { send: \"  send\", queue: \"queue\", deliver: \"deliver\", drop: \"drop\", \"no-room\": \"no room for\" };\n\
\n\
// What follows the level in the line of an event; docs/SCRIPTS.md has the lines.\n\
const REPORTED = {\n\
\x20 started: ([id]) => `${id} started at `,\n\
\x20 restarted: ([id, term, vote, base, last, commit]) => `${id} restarted at term=${term} vote=${vote} log=${base}..${last} commit=${commit}`,\n\
\x20 became: ([id, role, term]) => `${id} became ${role} at term ${term}`,\n\
\x20 \"cannot-campaign\": ([id]) => `${id} can't campaign: `,\n\
\x20 vote: ([id, type, granted, from, result]) => `${id} has ${type} ${granted ? \"granted\" : \"refused\"} from ${from}: ${result}`,\n\
\x20 ignored: ([id, type, from]) => `${id} ignored ${type} from ${from}`,\n\
\x20 \"dropped-proposal\": ([id]) => `${id} dropped a proposal`,\n\
\x20 conflict: ([id, index, commit]) => `${id} conflict at ${index}, commit ${commit}`,\n\
\x20 \"appends-nothing\": ([id]) => `${id} appends nothing: index limit`,\n\
\x20 \"replaced-change\": ([id, index]) => `${id} replaced change at ${index} by an empty entry: `,\n\
\x20 switched: ([id, config]) => `${id} switched to ${shown(config)}`,\n\
\x20 \"refused-change\": ([id, index, fault]) => `${id} refused change at ${index}: ${fault}`,\n\
\x20 restored: ([id, term, index]) => `${id} restored snapshot ${term}/${index}`,\n\
\x20 \"transfer-starts\": ([id, to]) => `${id} starts transfer to ${to}`,\n\
\x20 \"transfer-ends\": ([id, to]) => `${id} ends transfer to ${to}`,\n\
\x20 \"lost-quorum\": ([id]) => `${id} lost its quorum`,\n\
};\n\
\n\
const PLAIN = {\n\
\x20 ready: ({ id }) => `${id} ready`,\n\
\x20 \"nothing-ready\": ({ id }) => `${id} has nothing ready`,\n\
\x20 hard: ({ cells }) => `  hard term=${cells[0]} vote=${cells[1]} commit=${cells[2]}`,\n\
\x20 snapshot: ({ cells }) => `  snapshot ${cells[0]}/${cells[1]}`,\n\
\x20 save: ({ cells }) => `  save ${cells[1]}/${cells[0]} `,\n\
\x20 apply: ({ cells }) => `  apply ${cells[1]}/${cells[0]} `,\n\
\x20 \"no-messages\": () => \"no messages\",\n\
\x20 stopped: ({ cells }) => `stopped after ${cells[0]} rounds`,\n\
\x20 error: ({ cells }) => `error: ${shown(cells[0])}`,\n\
};\n\
\n\
function shows(line, event) {\n\
\x20 const { name, message, cells } = event;\n\
\x20 if (message) {\n\
\x20   return `${line} `.startsWith(`${VERBS[name]} ${message.from}->${message.to} ${message.type} `);\n\
\x20 }\n\
\x20 if (REPORTED[name]) {\n\
\x20   return /^[A-Z]+ /.test(line) && line.slice(line.indexOf(\" \") + 1).startsWith(REPORTED[name](cells));\n\
\x20 }\n\
\x20 return Boolean(PLAIN[name]) && line.startsWith(PLAIN[name](event));\n\
}\n\
\n\
function eventsOfLines(step) {\n\
\x20 const found = new Map();\n\
\x20 let line = 0;\n\
\x20 step.events.forEach((event, at) => {\n\
\x20   if (line < step.output.length && shows(step.output[line], event)) {\n\
\x20     found.set(line, at);\n\
\x20     line += 1;\n\
\x20   }\n\
\x20 });\n\
\x20 return found;\n\
}\n\
";
