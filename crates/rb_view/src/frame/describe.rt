//! Code of a page. What happens in words, for readers who can't see the picture: the sentences that `raftbench chart` gives its picture, of some directives. Made of assets/describe.js by `tests/page/assemble.py sources`.

/// The code.
#[rattlefmt::skip]
pub(crate) const DESCRIBE: &[u8] = b"\
\n\
// What happens in words, for readers who can't see the picture: the sentences that `raftbench chart` gives its picture, of some directives.\n\
\n\
\n\
\n\
// A picture has at most this many sentences: what follows them is told in their last.\n\
const MOST_SENTENCES = 2000;\n\
const ENDS = { deliver: \"delivered\", drop: \"dropped\", \"no-room\": \"given up\" };\n\
\n\
function sentences({ name, id, cells, message, reasons }) {\n\
\x20 const why = (reasons ?? []).map((reason) => ` (${reason})`).join(\"\");\n\
\x20 if (message) {\n\
\x20   const { from, to } = message;\n\
\x20   const words = messageWords(message);\n\
\x20   const sends = `node ${from} sends ${words} to node ${to}`;\n\
\x20   const ends = `${words} from node ${from} to node ${to} is ${ENDS[name]}${why}`;\n\
\x20   return ENDS[name] ? [...(name === \"no-room\" && !cells[0] ? [sends] : []), ends] : [sends];\n\
\x20 }\n\
\x20 if (NOTES[name]) {\n\
\x20   return [NOTES[name](cells)[0]];\n\
\x20 }\n\
\x20 return MARKS[name] ? [`node ${id}: ${MARKS[name](cells)[0]}${why}`] : [];\n\
}\n\
\n\
function notesOf(lines, first) {\n\
\x20 const found = [];\n\
\x20 let isInNote = false;\n\
\x20 lines.forEach((line, at) => {\n\
\x20   const text = line.trim().replace(/^#+ ?/, \"\");\n\
\x20   if (text) {\n\
\x20     found.push(isInNote ? text : `Line ${first + at}: note: ${text}`);\n\
\x20   }\n\
\x20   isInNote = text !== \"\";\n\
\x20 });\n\
\x20 return found;\n\
}\n\
\n\
function toldOf({ step, marks }) {\n\
\x20 const told = step.events.flatMap((event) => {\n\
\x20   const of = marks.filter((mark) => mark.of[mark.of.length - 1] === event && mark.text !== MARKS[event.name]?.(event.cells)[0]);\n\
\x20   return [...sentences(event), ...of.map(({ node, text }) => `node ${node}: ${text}`)];\n\
\x20 });\n\
\x20 const others = marks.filter(({ of }) => !step.events.includes(of[of.length - 1]));\n\
\x20 return [step.head[0], ...told, ...others.map(({ node, text }) => `node ${node}: ${text}`)];\n\
}\n\
\n\
function descriptionOf(model, rows) {\n\
\x20 const found = [];\n\
\x20 for (const row of rows) {\n\
\x20   const { line, lead, first, place } = row.step;\n\
\x20   found.push(...notesOf(lead, first), ...toldOf(row).map((told) => `Line ${line}: ${told}.`));\n\
\x20   if (place === model.steps.length) {\n\
\x20     const waiting = model.spans.waiting.map((message) => `${messageWords(message)} from node ${message.from} to node ${message.to} is on its way`);\n\
\x20     found.push(...waiting.map((told) => `Line ${line}: ${told}.`), ...notesOf(model.tail, model.tailLine));\n\
\x20   }\n\
\x20   if (found.length > MOST_SENTENCES) {\n\
\x20     return [...found.slice(0, MOST_SENTENCES), `Line ${line}: and more.`];\n\
\x20   }\n\
\x20 }\n\
\x20 return found;\n\
}\n\
";
