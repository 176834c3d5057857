//! Code of a page. Where everything is in the picture. Made of assets/layout.js by `tests/page/assemble.py sources`.

/// The code.
#[rattlefmt::skip]
pub(crate) const LAYOUT: &[u8] = b"\
\n\
// Where everything is in the picture. Time goes downwards in slots of one height. An arrow's start, an arrow's end, a line of a mark and a\n\
// line of a note have a slot each, so that no two texts meet. Only these share one: an arrow's end with the first mark that it leads to,\n\
// which is on the band's other side, and marks of nodes further and further to the right, one after another.\n\
\n\
\n\
\n\
const ROW_TOP = 26;\n\
const ROW_BOTTOM = 8;\n\
// How far the columns are from the edges and from one another.\n\
const MORE_LEFT = 72;\n\
const LEAST_RIGHT = 120;\n\
const GREATEST_RIGHT = 260;\n\
const LEAST_GAP = 128;\n\
const GOOD_GAP = 190;\n\
const GREATEST_GAP = 260;\n\
// The same where the picture has less room than this.\n\
const NARROW = 560;\n\
const NARROW_LEFT = 94;\n\
const NARROW_RIGHT = 80;\n\
const NARROW_GAP = 108;\n\
const MORE_GAP = 24;\n\
// How many lines a mark or a note may take.\n\
const MOST_LINES = 4;\n\
// How many a head may take, and how wide its letters are.\n\
const MOST_HEAD_LINES = 2;\n\
const HEAD_LETTER = 6.7;\n\
// Half of the gap in the band of a node that restarts.\n\
const HALF_GAP = 4;\n\
\n\
const topOf = ({ head }) => ROW_TOP + LINE_STEP * (head.length - 1);\n\
\n\
const fours = (size) => 4 * Math.floor(size / 4);\n\
\n\
// The commit of a node after an event of it.\n\
const COMMITS = { restored: ([, , index]) => index, restarted: ([, , , , , commit]) => commit };\n\
\n\
function gathered(step, commits, gone) {\n\
\x20 const found = [];\n\
\x20 for (const event of step.events) {\n\
\x20   if (event.name === \"save\") {\n\
\x20     addSaved(found, event, gone);\n\
\x20   } else if (event.name === \"hard\" && event.cells[2] > commits[event.id]) {\n\
\x20     commits[event.id] = event.cells[2];\n\
\x20     found.push({ name: \"committed\", id: event.id, cells: [event.id, event.cells[2]], of: [event] });\n\
\x20   } else {\n\
\x20     commits[event.id] = COMMITS[event.name]?.(event.cells) ?? commits[event.id]; // its mark says so\n\
\x20     found.push(event);\n\
\x20   }\n\
\x20 }\n\
\x20 return found;\n\
}\n\
\n\
function addSaved(found, event, gone) {\n\
\x20 const [index] = event.cells;\n\
\x20 if (gone.get(event.id) === index) {\n\
\x20   gone.delete(event.id);\n\
\x20   found.push({ name: \"replaced\", id: event.id, cells: [event.id, index], of: [event] });\n\
\x20 }\n\
\x20 const last = found[found.length - 1];\n\
\x20 if (last && last.name === \"saved\" && last.id === event.id) {\n\
\x20   last.cells[2] = index;\n\
\x20   last.of?.push(event);\n\
\x20 } else {\n\
\x20   found.push({ name: \"saved\", id: event.id, cells: [event.id, index, index], of: [event] });\n\
\x20 }\n\
}\n\
\n\
class Layout {\n\
\x20 constructor(model) {\n\
\x20   this.model = model;\n\
\x20   // What was drawn is of this placing, by identity: another placing, of another layout too, has another.\n\
\x20   this.version = {};\n\
\x20   this.left = this.gap = this.right = this.width = this.height = 0;\n\
\x20   this.headLeft = HEAD_LEFT;\n\
\x20   this.isNarrow = false;\n\
\x20   this.tops = [];\n\
\x20   this.rows = [];\n\
\x20   this.bands = [];\n\
\x20   this.commits = [];\n\
\x20   this.bases = [];\n\
\x20   this.lasts = [];\n\
\x20   this.shared = null;\n\
\x20   this.arrival = null;\n\
\x20   this.isReady = false;\n\
\x20 }\n\
\n\
\x20 spread(room) {\n\
\x20   const gaps = Math.max(this.model.nodes.length - 1, 0);\n\
\x20   this.isNarrow = room < NARROW;\n\
\x20   const { left, gap, right } = this.isNarrow ? this.narrow(room, gaps) : this.wide(room, gaps);\n\
\x20   this.width = Math.max(room, left + gap * gaps + right);\n\
\x20   if (left !== this.left || gap !== this.gap || right !== this.right) {\n\
\x20     Object.assign(this, { left, gap, right, headLeft: this.isNarrow ? NARROW_HEAD_LEFT : HEAD_LEFT });\n\
\x20     this.placeAll();\n\
\x20   }\n\
\x20 }\n\
\n\
\x20 narrow(room, gaps) {\n\
\x20   const spare = Math.max(0, room - NARROW_LEFT - NARROW_GAP * gaps - NARROW_RIGHT);\n\
\x20   const more = fours(Math.min(spare / Math.max(gaps, 1), MORE_GAP));\n\
\x20   return { left: NARROW_LEFT + fours(Math.min(spare - more * gaps, MORE_LEFT)), gap: NARROW_GAP + more, right: NARROW_RIGHT };\n\
\x20 }\n\
\n\
\x20 wide(room, gaps) {\n\
\x20   const free = room - LEAST_LEFT - LEAST_RIGHT;\n\
\x20   const good = Math.min(Math.max(free / Math.max(gaps, 1), LEAST_GAP), GOOD_GAP);\n\
\x20   const left = LEAST_LEFT + fours(Math.min(Math.max(free - good * gaps, 0) / 2, MORE_LEFT));\n\
\x20   const more = (free - 2 * (left - LEAST_LEFT)) / Math.max(gaps, 1);\n\
\x20   const gap = fours(Math.min(Math.max(good, more), GREATEST_GAP));\n\
\x20   return { left, gap, right: fours(Math.min(Math.max(room - left - gap * gaps, LEAST_RIGHT), GREATEST_RIGHT)) };\n\
\x20 }\n\
\n\
\x20 x(id) {\n\
\x20   return this.left + this.gap * (id - 1);\n\
\x20 }\n\
\n\
\x20 roomAt(id, isLeft) {\n\
\x20   if (isLeft) {\n\
\x20     return (id === 1 ? this.left : this.gap) - BESIDE - FREE;\n\
\x20   }\n\
\x20   return (id < this.model.nodes.length ? this.gap : this.right) - BESIDE - FREE;\n\
\x20 }\n\
\n\
\x20 placeAll() {\n\
\x20   this.version = {};\n\
\x20   this.tops = [];\n\
\x20   this.rows = [];\n\
\x20   this.bands = this.model.nodes.map(() => ({ tops: [], roles: [] }));\n\
\x20   this.commits = [];\n\
\x20   this.bases = [];\n\
\x20   this.lasts = [];\n\
\x20   this.height = 0;\n\
\x20   this.model.steps.forEach((step) => this.addRow(step));\n\
\x20   this.tops.push(this.height);\n\
\x20 }\n\
\n\
\x20 addRow(step) {\n\
\x20   const row = { step, head: this.headOf(step), top: this.height, height: 0, marks: [], sent: [], notes: [], slots: 0 };\n\
\x20   this.tops.push(this.height);\n\
\x20   this.rows.push(row);\n\
\x20   const gone = this.goneIn(step);\n\
\x20   this.place(row, gathered(step, this.commits, gone));\n\
\x20   this.placeChanges(row, gone);\n\
\x20   row.height = topOf(row) + SLOT * row.slots + ROW_BOTTOM;\n\
\x20   this.height += row.height;\n\
\x20 }\n\
\n\
\x20 headOf(step) {\n\
\x20   const sign = (step.pieces === null ? \"\" : \"\xe2\x9c\x97 \") + (step.warnings.length > 0 ? \"\xe2\x9a\xa0 \" : \"\");\n\
\x20   return brokenAt(sign + step.head.join(\" \"), Math.floor((this.left - this.headLeft - FREE) / HEAD_LETTER), MOST_HEAD_LINES);\n\
\x20 }\n\
\n\
\x20 goneIn(step) {\n\
\x20   const gone = new Map();\n\
\x20   for (const [id, stays] of step.stays) {\n\
\x20     if (stays < this.lasts[id] && stays >= this.bases[id]) {\n\
\x20       gone.set(id, stays + 1);\n\
\x20     }\n\
\x20   }\n\
\x20   return gone;\n\
\x20 }\n\
\n\
\x20 nextSlot(row) {\n\
\x20   row.slots += 1;\n\
\x20   this.shared = null;\n\
\x20   this.arrival = null;\n\
\x20   return row.top + topOf(row) + SLOT * (row.slots - 0.5);\n\
\x20 }\n\
\n\
\x20 place(row, events) {\n\
\x20   this.shared = null;\n\
\x20   this.arrival = null;\n\
\x20   this.isReady = false;\n\
\x20   for (const event of events) {\n\
\x20     if (event.name === \"ready\") {\n\
\x20       this.isReady = true;\n\
\x20     } else if (event.message) {\n\
\x20       this.placeMessage(row, event, event.message);\n\
\x20     } else if (NOTES[event.name]) {\n\
\x20       this.placeNote(row, event);\n\
\x20     } else if (MARKS[event.name]) {\n\
\x20       this.placeMark(row, event);\n\
\x20     }\n\
\x20   }\n\
\x20 }\n\
\n\
\x20 placeMessage(row, event, message) {\n\
\x20   if (event.name === \"no-room\" && row.sent.includes(message)) {\n\
\x20     return; // its arrow says so\n\
\x20   }\n\
\x20   const y = this.nextSlot(row);\n\
\x20   this.isReady = false;\n\
\x20   if (event.name === \"deliver\") {\n\
\x20     message.end = y;\n\
\x20     this.arrival = { node: message.to, y: y + 4, side: message.from < message.to ? \"right\" : \"left\" };\n\
\x20   } else if (event.name === \"drop\") {\n\
\x20     message.end = y;\n\
\x20   } else {\n\
\x20     message.start = y;\n\
\x20     row.sent.push(message);\n\
\x20   }\n\
\x20 }\n\
\n\
\x20 placeNote(row, event) {\n\
\x20   const [text, look] = NOTES[event.name](event.cells);\n\
\x20   const lines = folded(text, this.left - this.headLeft - BESIDE - FREE, MOST_LINES);\n\
\x20   const ys = lines.map(() => this.nextSlot(row));\n\
\x20   row.notes.push({ text, look, lines, y: ys[0], of: event });\n\
\x20 }\n\
\n\
\x20 placeMark(row, event) {\n\
\x20   const { y, side } = this.markPlace(row, event);\n\
\x20   const [text, look] = MARKS[event.name](event.cells);\n\
\x20   const weight = look === \"quiet\" ? \"plain\" : \"bold\";\n\
\x20   const lines = folded(text, this.roomAt(event.id, side === \"left\"), event.name === \"appended\" ? 1 : MOST_LINES, weight);\n\
\x20   lines.slice(1).forEach(() => this.nextSlot(row));\n\
\x20   const width = Math.max(...lines.map((line) => widthOf(line, weight)));\n\
\x20   row.marks.push({ node: event.id, y, side, text, look, lines, width, of: event.of ?? [event] });\n\
\x20   if (event.name === \"started\") {\n\
\x20     this.setRole(event.id, y, \"follower\");\n\
\x20   } else if (event.name === \"became\") {\n\
\x20     this.setRole(event.id, y, event.cells[1]);\n\
\x20   } else if (event.name === \"restored\") {\n\
\x20     this.bases[event.id] = event.cells[2];\n\
\x20   } else if (event.name === \"restarted\") {\n\
\x20     this.setRole(event.id, y - HALF_GAP, \"none\");\n\
\x20     this.setRole(event.id, y + HALF_GAP, \"follower\");\n\
\x20     this.bases[event.id] = event.cells[3];\n\
\x20   }\n\
\x20 }\n\
\n\
\x20 markPlace(row, { id, name }) {\n\
\x20   if (this.arrival && this.arrival.node === id && (!this.isReady || name === \"committed\")) {\n\
\x20     const place = this.arrival;\n\
\x20     this.arrival = null;\n\
\x20     return place;\n\
\x20   }\n\
\x20   if (!this.shared || this.shared.node >= id) {\n\
\x20     this.shared = { y: this.nextSlot(row), node: id };\n\
\x20   }\n\
\x20   this.shared = { y: this.shared.y, node: id };\n\
\x20   this.arrival = null;\n\
\x20   return { y: this.shared.y + 1, side: \"right\" };\n\
\x20 }\n\
\n\
\x20 setRole(id, y, role) {\n\
\x20   this.bands[id - 1].tops.push(y);\n\
\x20   this.bands[id - 1].roles.push(role);\n\
\x20 }\n\
\n\
\x20 placeChanges(row, gone) {\n\
\x20   const { moment, before, changed } = row.step;\n\
\x20   for (const id of changed.length > 1 ? [...changed].sort((one, other) => one - other) : changed) {\n\
\x20     const node = this.model.nodes[id - 1];\n\
\x20     const { commit } = node.numbersAt(moment);\n\
\x20     const { base, last } = node.logAt(moment);\n\
\x20     const isNew = !node.isThereAt(before);\n\
\x20     if (!isNew && commit > this.commits[id] && base <= this.commits[id]) {\n\
\x20       this.placeMark(row, { name: \"committed\", id, cells: [id, commit] });\n\
\x20     } else if (!isNew && base > this.bases[id] && base <= this.commits[id]) {\n\
\x20       this.placeMark(row, { name: \"compacted\", id, cells: [id, base] });\n\
\x20     }\n\
\x20     const stays = row.step.stays.get(id);\n\
\x20     if (!isNew && stays !== undefined) {\n\
\x20       this.placeEntries(row, node, gone, stays, last);\n\
\x20     }\n\
\x20     this.commits[id] = commit;\n\
\x20     this.bases[id] = base;\n\
\x20     this.lasts[id] = last;\n\
\x20   }\n\
\x20 }\n\
\n\
\x20 placeEntries(row, node, gone, stays, last) {\n\
\x20   const { id } = node;\n\
\x20   const { durable } = node.numbersAt(row.step.moment);\n\
\x20   const from = gone.get(id);\n\
\x20   if (from !== undefined && last < from && hasRestarted(row.step, id)) {\n\
\x20     this.placeMark(row, { name: \"lost\", id, cells: [id, from, this.lasts[id]] });\n\
\x20   } else if (from !== undefined) {\n\
\x20     this.placeMark(row, { name: \"replaced\", id, cells: [id, from] });\n\
\x20   }\n\
\x20   if (last > durable && last > stays) {\n\
\x20     this.placeMark(row, { name: \"appended\", id, cells: [id, last, node.entryAt(last, row.step.moment).body] });\n\
\x20   }\n\
\x20 }\n\
\n\
\x20 rowAt(y) {\n\
\x20   return Math.min(Math.max(firstAbove(this.tops, y) - 1, 0), this.rows.length - 1);\n\
\x20 }\n\
\n\
\x20 yOf(step, at) {\n\
\x20   const row = this.rows[step.place - 1];\n\
\x20   for (let place = at; place >= 0; place -= 1) {\n\
\x20     const event = step.events[place];\n\
\x20     const mark = row.marks.find(({ of }) => of.includes(event)) ?? row.notes.find(({ of }) => of === event);\n\
\x20     const message = event.message && (event.name === \"deliver\" || event.name === \"drop\" ? event.message.end : event.message.start);\n\
\x20     if (mark || message !== undefined) {\n\
\x20       return mark ? mark.y - 1 : (message);\n\
\x20     }\n\
\x20   }\n\
\x20   return row.top + topOf(row) - 4;\n\
\x20 }\n\
\n\
\x20 // ---- labels and arrows\n\
\n\
\x20 drawnOf(message) {\n\
\x20   if (message.drawn?.version !== this.version) {\n\
\x20     const label = this.labelOf(message);\n\
\x20     message.drawn = { version: this.version, label, points: new Route(this, message, label).points() };\n\
\x20   }\n\
\x20   return message.drawn;\n\
\x20 }\n\
\n\
\x20 labelOf(message) {\n\
\x20   const isLeft = message.to < message.from;\n\
\x20   const least = Math.min(this.gap - BESIDE - ARROW, 110);\n\
\x20   const room = !isLeft && message.from >= this.model.nodes.length ? this.roomAt(message.from, false) : Math.max(least, 0.62 * this.gap);\n\
\x20   const labels = labelsOf(message);\n\
\x20   return fitted(labels.find((label) => widthOf(label) <= room) ?? labels[labels.length - 1], room);\n\
\x20 }\n\
\n\
\x20 textsOf(row) {\n\
\x20   if (!row.texts) {\n\
\x20     const labels = row.sent.map((message) => {\n\
\x20       const isLeft = message.to < message.from;\n\
\x20       const y = message.start ?? 0;\n\
\x20       return { node: message.from, isLeft, width: widthOf(this.labelOf(message)), top: y - 14, bottom: y - 2 };\n\
\x20     });\n\
\x20     const marks = row.marks.map(({ node, side, width, y, lines }) => {\n\
\x20       return { node, isLeft: side === \"left\", width, top: y - 10, bottom: y + 3 + LINE_STEP * (lines.length - 1) };\n\
\x20     });\n\
\x20     row.texts = [...labels, ...marks];\n\
\x20   }\n\
\x20   return row.texts;\n\
\x20 }\n\
}\n\
";
