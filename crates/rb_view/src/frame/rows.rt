//! Code of a page. From rows to what the page shows. Made of assets/rows.js by `tests/page/assemble.py sources`.

/// The code.
#[rattlefmt::skip]
pub(crate) const ROWS: &[u8] = b"\
\n\
// From rows to what the page shows. docs/FORMATS.md says what each row is; this is the one place that reads them.\n\
\n\
\n\
\n\
const DIRECTIVES = 1;\n\
const EVENTS = 2;\n\
\n\
class Node {\n\
\x20 constructor(id) {\n\
\x20   this.id = id;\n\
\x20   this.numbers = new History();\n\
\x20   this.config = new History();\n\
\x20   this.log = new History();\n\
\x20   this.entries = new Map();\n\
\x20   this.views = new Map();\n\
\x20 }\n\
\n\
\x20 isThereAt(moment) {\n\
\x20   return this.numbers.moments[0] <= moment;\n\
\x20 }\n\
\n\
\x20 numbersAt(moment) {\n\
\x20   return (this.numbers.at(moment));\n\
\x20 }\n\
\n\
\x20 logAt(moment) {\n\
\x20   return (this.log.at(moment));\n\
\x20 }\n\
\n\
\x20 entryAt(index, moment) {\n\
\x20   return (this.entries.get(index)?.at(moment));\n\
\x20 }\n\
}\n\
\n\
function historyAt(histories, key) {\n\
\x20 let history = histories.get(key);\n\
\x20 if (!history) {\n\
\x20   history = new History();\n\
\x20   histories.set(key, history);\n\
\x20 }\n\
\x20 return history;\n\
}\n\
\n\
class Model {\n\
\x20 constructor() {\n\
\x20   this.format = DIRECTIVES;\n\
\x20   this.name = \"\";\n\
\x20   this.source = new Source(\"\");\n\
\x20   this.steps = [];\n\
\x20   this.messages = [];\n\
\x20   this.nodes = [];\n\
\x20   this.mismatches = [];\n\
\x20   this.tail = [];\n\
\x20   this.tailLine = 1;\n\
\x20   this.spans = new Spans([]);\n\
\x20 }\n\
\n\
\x20 hasEvents() {\n\
\x20   return this.format === EVENTS;\n\
\x20 }\n\
}\n\
\n\
class Reader {\n\
\x20 constructor() {\n\
\x20   this.model = new Model();\n\
\x20   this.isWhole = false;\n\
\x20   this.mail = new Mail();\n\
\x20   this.terms = [];\n\
\x20   this.step = (null);\n\
\x20   this.readyNode = 0;\n\
\x20   this.logNode = new Node(0);\n\
\x20   this.sentByReady = 0;\n\
\x20   this.moment = 0;\n\
\x20   this.serial = 0;\n\
\x20   // Whether rows of changes came after the last event.\n\
\x20   this.hasChanged = false;\n\
\x20 }\n\
\n\
\x20 read(row) {\n\
\x20   const name = row[0];\n\
\x20   const cells = row.slice(1);\n\
\x20   const read = READERS[name];\n\
\x20   if (read) {\n\
\x20     read(this, cells, name);\n\
\x20   } else {\n\
\x20     this.event(name, cells[0], cells);\n\
\x20   }\n\
\x20   if (name === \"became\") {\n\
\x20     this.terms[cells[0]] = cells[2];\n\
\x20   }\n\
\x20 }\n\
\n\
\x20 node(id) {\n\
\x20   const { nodes } = this.model;\n\
\x20   this.hasChanged = true;\n\
\x20   if (!nodes[id - 1]) {\n\
\x20     nodes[id - 1] = new Node(id);\n\
\x20   }\n\
\x20   if (!this.step.changed.includes(id)) {\n\
\x20     this.step.changed.push(id);\n\
\x20   }\n\
\x20   return nodes[id - 1];\n\
\x20 }\n\
\n\
\x20 event(name, id, cells, message) {\n\
\x20   if (name === \"ready\" || name === \"deliver\" || this.hasChanged) {\n\
\x20     this.hasChanged = false;\n\
\x20     this.moment += 1;\n\
\x20     this.step.groups.push({ start: this.step.events.length, moment: this.moment });\n\
\x20   }\n\
\x20   this.step.events.push({ name, id, cells, message });\n\
\x20   this.serial += 1;\n\
\x20 }\n\
\n\
\x20 sends(name, cells) {\n\
\x20   const [from, to, type, term, ...said] = cells;\n\
\x20   const number = this.model.messages.length;\n\
\x20   const message = { number, from, to, type, term, said, sent: this.step, sentAt: this.serial, met: null, metAt: 0, fate: \"waiting\", metTerm: this.terms[to] };\n\
\x20   this.model.messages.push(message);\n\
\x20   this.event(name, from, [], message);\n\
\x20   return message;\n\
\x20 }\n\
\n\
\x20 meets(name, cells) {\n\
\x20   const [from, to, type, term, ...said] = cells;\n\
\x20   const message = this.mail.take({ from, to, type, term, said });\n\
\x20   message.met = this.step;\n\
\x20   message.metAt = this.serial;\n\
\x20   message.metTerm = this.terms[message.to];\n\
\x20   message.fate = name === \"deliver\" ? \"delivered\" : \"dropped\";\n\
\x20   this.event(name, message.to, [], message);\n\
\x20 }\n\
\n\
\x20 givesUp(cells) {\n\
\x20   const isSent = this.sentByReady > 0;\n\
\x20   const message = isSent ? this.mail.takeBack({ to: cells[1], type: cells[2] }) : this.sends(\"no-room\", cells);\n\
\x20   this.sentByReady -= isSent ? 1 : 0;\n\
\x20   message.met = this.step;\n\
\x20   message.metAt = isSent ? this.serial : message.sentAt;\n\
\x20   message.fate = \"given up\";\n\
\x20   if (isSent) {\n\
\x20     this.event(\"no-room\", message.from, [1], message);\n\
\x20   }\n\
\x20 }\n\
\n\
\x20 last() {\n\
\x20   return this.step.events[this.step.events.length - 1];\n\
\x20 }\n\
}\n\
\n\
const ofReady = (reader, cells, name) => reader.event(name, reader.readyNode, cells);\n\
\n\
const meeting = (reader, cells, name) => reader.meets(name, cells);\n\
\n\
const READERS = {\n\
\x20 raftbench({ model }, [format, name]) {\n\
\x20   if (format !== DIRECTIVES && format !== EVENTS) {\n\
\x20     throw new Error(\"the rows are of another format\");\n\
\x20   }\n\
\x20   model.format = format;\n\
\x20   model.name = name;\n\
\x20 },\n\
\x20 text({ model }, [bytes]) {\n\
\x20   spellFor(bytes, model.name);\n\
\x20   model.name = shown(model.name);\n\
\x20   model.source = new Source(bytes);\n\
\x20 },\n\
\x20 step(reader, [line]) {\n\
\x20   const { steps, source } = reader.model;\n\
\x20   const before = reader.moment;\n\
\x20   reader.moment += 1;\n\
\x20   reader.hasChanged = false;\n\
\x20   reader.step = {\n\
\x20     place: steps.length + 1, line, ...source.block(line), output: [], pieces: null, events: [], changed: [], stays: new Map(), warnings: [],\n\
\x20     groups: [{ start: 0, moment: reader.moment }], serial: reader.serial, before, moment: reader.moment,\n\
\x20   };\n\
\x20   steps.push(reader.step);\n\
\x20   reader.readyNode = 0;\n\
\x20   reader.sentByReady = 0;\n\
\x20 },\n\
\x20 output({ step }, [text]) {\n\
\x20   step.output.push(shown(text));\n\
\x20 },\n\
\x20 mismatch({ step, model }) {\n\
\x20   step.pieces = [];\n\
\x20   model.mismatches.push(step.place);\n\
\x20 },\n\
\x20 same({ step }, [count]) {\n\
\x20   step.pieces?.push({ kind: \"same\", count });\n\
\x20 },\n\
\x20 expected({ step }, [text]) {\n\
\x20   step.pieces?.push({ kind: \"expected\", text: shown(text) });\n\
\x20 },\n\
\x20 actual({ step }, [count]) {\n\
\x20   step.pieces?.push({ kind: \"actual\", count });\n\
\x20 },\n\
\x20 warning({ model }, [line, text]) {\n\
\x20   const step = model.steps.filter((it) => it.line <= line).at(-1);\n\
\x20   step?.warnings.push(`line ${line}: ${shown(text)}`);\n\
\x20 },\n\
\x20 hint(reader, [text]) {\n\
\x20   (reader.last().hints ||= []).push(shown(text));\n\
\x20 },\n\
\x20 reason(reader, [text]) {\n\
\x20   (reader.last().reasons ||= []).push(shown(text));\n\
\x20 },\n\
\x20 ready(reader, [id]) {\n\
\x20   reader.readyNode = id;\n\
\x20   reader.sentByReady = 0;\n\
\x20   reader.event(\"ready\", id, []);\n\
\x20 },\n\
\x20 hard: ofReady,\n\
\x20 snapshot: ofReady,\n\
\x20 save: ofReady,\n\
\x20 apply: ofReady,\n\
\x20 send(reader, cells, name) {\n\
\x20   reader.mail.push(reader.sends(name, cells));\n\
\x20   reader.sentByReady += 1;\n\
\x20 },\n\
\x20 queue(reader, cells, name) {\n\
\x20   reader.mail.push(reader.sends(name, cells));\n\
\x20 },\n\
\x20 deliver: meeting,\n\
\x20 drop: meeting,\n\
\x20 \"no-room\"(reader, cells) {\n\
\x20   reader.givesUp(cells);\n\
\x20 },\n\
\x20 \"no-messages\"(reader, cells, name) {\n\
\x20   reader.event(name, 0, cells);\n\
\x20 },\n\
\x20 stopped(reader, cells, name) {\n\
\x20   reader.event(name, 0, cells);\n\
\x20 },\n\
\x20 error(reader, cells, name) {\n\
\x20   reader.event(name, 0, cells);\n\
\x20 },\n\
\x20 node(reader, [id, ...numbers]) {\n\
\x20   const [role, term, vote, lead, commit, applied, durable, length, end] = numbers;\n\
\x20   reader.terms[id] = term;\n\
\x20   reader.node(id).numbers.set(reader.moment, { role, term, vote, lead, commit, applied, durable, length, end });\n\
\x20 },\n\
\x20 config(reader, [id, text]) {\n\
\x20   reader.node(id).config.set(reader.moment, text);\n\
\x20 },\n\
\x20 log(reader, [id, baseTerm, base, stays]) {\n\
\x20   const { step, moment } = reader;\n\
\x20   reader.logNode = reader.node(id);\n\
\x20   reader.logNode.log.set(moment, { baseTerm, base, last: stays });\n\
\x20   step.stays.set(id, Math.max(Math.min(step.stays.get(id) ?? stays, stays), base));\n\
\x20 },\n\
\x20 entry({ logNode, moment }, [index, term, body]) {\n\
\x20   historyAt(logNode.entries, index).set(moment, { term, body });\n\
\x20   logNode.logAt(moment).last = index;\n\
\x20 },\n\
\x20 view(reader, [id, member, ...cells]) {\n\
\x20   const [state, match, next, inFlight, isWaiting, pending, isActive] = cells;\n\
\x20   historyAt(reader.node(id).views, member).set(reader.moment, { state, match, next, inFlight, isWaiting, pending, isActive });\n\
\x20 },\n\
\x20 \"no-view\"(reader, [id, member]) {\n\
\x20   historyAt(reader.node(id).views, member).set(reader.moment, null);\n\
\x20 },\n\
\x20 end(reader) {\n\
\x20   const { model } = reader;\n\
\x20   model.tailLine = model.source.next + 1;\n\
\x20   model.tail = model.source.rest();\n\
\x20   reader.isWhole = true;\n\
\x20 },\n\
};\n\
\n\
function readRows(rows) {\n\
\x20 const reader = new Reader();\n\
\x20 for (const row of rows) {\n\
\x20   reader.read(row);\n\
\x20   if (reader.step) {\n\
\x20     reader.step.moment = reader.moment;\n\
\x20   }\n\
\x20 }\n\
\x20 if (!reader.isWhole) {\n\
\x20   throw new Error(\"the rows have no end\");\n\
\x20 }\n\
\x20 reader.model.spans = new Spans(reader.model.messages);\n\
\x20 return reader.model;\n\
}\n\
";
