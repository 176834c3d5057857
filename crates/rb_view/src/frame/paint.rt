//! Code of a page. Draws a part of the picture, for the screen and for print. Made of assets/paint.js by `tests/page/assemble.py sources`.

/// The code.
#[rattlefmt::skip]
pub(crate) const PAINT: &[u8] = b"\
\n\
// Draws a part of the picture, for the screen and for print.\n\
\n\
\n\
\n\
\n\
const WHOLE = { chosen: 0, now: null, serial: Infinity, event: null, isKept: () => true, isFound: () => false };\n\
\n\
const n = (number) => number.toFixed(1);\n\
\n\
class Paths {\n\
\x20 constructor() {\n\
\x20   this.parts = new Map();\n\
\x20 }\n\
\n\
\x20 add(look, data) {\n\
\x20   const parts = this.parts.get(look);\n\
\x20   if (parts) {\n\
\x20     parts.push(data);\n\
\x20   } else {\n\
\x20     this.parts.set(look, [data]);\n\
\x20   }\n\
\x20 }\n\
\n\
\x20 draw(parent) {\n\
\x20   for (const [look, parts] of this.parts) {\n\
\x20     svg(parent, \"path\", { class: look, d: parts.join(\"\") });\n\
\x20   }\n\
\x20 }\n\
}\n\
\n\
function crossAt(x, y) {\n\
\x20 return `M${n(x - 4)} ${n(y - 4)}l8 8m0 -8l-8 8`;\n\
}\n\
\n\
function tipAt(x, y, dx, dy) {\n\
\x20 const length = Math.hypot(dx, dy) || 1;\n\
\x20 const [ux, uy] = [dx / length, dy / length];\n\
\x20 return `M${n(x)} ${n(y)}L${n(x - 9 * ux - 3.6 * uy)} ${n(y - 9 * uy + 3.6 * ux)}L${n(x - 9 * ux + 3.6 * uy)} ${n(y - 9 * uy - 3.6 * ux)}Z`;\n\
}\n\
\n\
const joined = (...looks) => looks.filter(Boolean).join(\" \");\n\
\n\
class Painter {\n\
\x20 constructor(layout, scene) {\n\
\x20   this.layout = layout;\n\
\x20   this.scene = scene;\n\
\x20   this.labels = new Map();\n\
\x20   this.arrows = group();\n\
\x20 }\n\
\n\
\x20 part(top, bottom, left) {\n\
\x20   const { layout } = this;\n\
\x20   const first = layout.rowAt(top);\n\
\x20   const last = layout.rowAt(bottom);\n\
\x20   const rows = layout.rows.slice(first, last + 1);\n\
\x20   const all = group();\n\
\x20   all.setAttribute(\"transform\", `translate(${-left} ${-top})`);\n\
\x20   this.drawRows(all, rows);\n\
\x20   this.drawBands(all, first, last);\n\
\x20   this.drawMessages(all, layout.model.spans.between(first + 1, last + 1), top, bottom);\n\
\x20   rows.forEach((row) => this.drawMarks(all, row));\n\
\x20   const gutter = svg(all, \"g\", { transform: `translate(${left} 0)` });\n\
\x20   rows.forEach((row) => this.drawHead(gutter, row));\n\
\x20   return all;\n\
\x20 }\n\
\n\
\x20 isLater(y) {\n\
\x20   return this.scene.now !== null && y > this.scene.now + 3;\n\
\x20 }\n\
\n\
\x20 drawRows(all, rows) {\n\
\x20   const { width } = this.layout;\n\
\x20   const chosen = this.layout.rows[this.scene.chosen - 1];\n\
\x20   if (chosen && rows.includes(chosen)) {\n\
\x20     svg(all, \"rect\", { class: \"row chosen\", x: 0, y: chosen.top, width, height: chosen.height });\n\
\x20   }\n\
\x20   svg(all, \"path\", { class: \"edge\", d: rows.map((row) => `M0 ${row.top + 0.5}H${width}`).join(\"\") });\n\
\x20   if (this.scene.now !== null) {\n\
\x20     svg(all, \"path\", { class: \"now\", d: `M${this.layout.left - 2 * BESIDE} ${n(this.scene.now)}H${width}` });\n\
\x20   }\n\
\x20 }\n\
\n\
\x20 drawBands(all, first, last) {\n\
\x20   const from = this.layout.tops[first];\n\
\x20   const to = this.layout.tops[last + 1];\n\
\x20   this.layout.bands.forEach(({ tops, roles }, at) => {\n\
\x20     for (let part = Math.max(0, firstAbove(tops, from) - 1); part < tops.length && tops[part] < to; part += 1) {\n\
\x20       const top = Math.max(from, tops[part]);\n\
\x20       const bottom = Math.min(to, tops[part + 1] ?? to);\n\
\x20       if (roles[part] === \"none\" || bottom <= top) {\n\
\x20         continue;\n\
\x20       }\n\
\x20       const half = roles[part] === \"leader\" ? HALF_BAND : roles[part] === \"follower\" ? 2.5 : 4;\n\
\x20       svg(all, \"rect\", { class: `band ${roles[part]}`, x: this.layout.x(at + 1) - half, y: top, width: 2 * half, height: bottom - top });\n\
\x20     }\n\
\x20   });\n\
\x20 }\n\
\n\
\x20 drawMessages(all, messages, top, bottom) {\n\
\x20   const lines = new Paths();\n\
\x20   const labels = [];\n\
\x20   for (const message of messages) {\n\
\x20     const start = message.start ?? 0;\n\
\x20     if ((message.end ?? start) >= top - SLOT && start <= bottom + SLOT) {\n\
\x20       this.drawArrow(lines, message);\n\
\x20       labels.push(message);\n\
\x20     }\n\
\x20   }\n\
\x20   this.arrows = svg(all, \"g\", {});\n\
\x20   lines.draw(this.arrows);\n\
\x20   labels.forEach((message) => this.drawLabel(all, message));\n\
\x20 }\n\
\n\
\x20 lookOf(message) {\n\
\x20   const { scene } = this;\n\
\x20   const isNow = scene.event?.message === message;\n\
\x20   const isUnderWay = scene.event !== null && message.sentAt <= scene.serial && message.metAt > scene.serial;\n\
\x20   const isKept = scene.isKept({ name: \"send\", id: message.from, cells: [], message });\n\
\x20   return joined(isNow && \"now\", this.isLater(message.start ?? 0) && \"later\", isUnderWay && \"under-way\", !isKept && \"dim\");\n\
\x20 }\n\
\n\
\x20 drawArrow(lines, message) {\n\
\x20   const { chosen } = this.scene;\n\
\x20   const kind = KINDS[message.type];\n\
\x20   const { points } = this.layout.drawnOf(message);\n\
\x20   const isHere = message.sent.place === chosen || message.met?.place === chosen;\n\
\x20   const look = this.lookOf(message);\n\
\x20   lines.add(\n\
\x20     joined(\"arrow\", kind, message.fate === \"waiting\" && \"waiting\", isHere && \"here\", look),\n\
\x20     `M${points.map(([x, y]) => `${n(x)} ${n(y)}`).join(\"L\")}`,\n\
\x20   );\n\
\x20   const [[fromX, fromY], [x, y]] = points.slice(-2);\n\
\x20   if (message.fate === \"delivered\") {\n\
\x20     lines.add(joined(\"tip\", kind, look), tipAt(x, y, x - fromX, y - fromY));\n\
\x20   } else if (message.fate !== \"waiting\") {\n\
\x20     lines.add(joined(\"cross\", look), crossAt(x, y));\n\
\x20   }\n\
\x20 }\n\
\n\
\x20 drawLabel(all, message) {\n\
\x20   const isLeft = message.to < message.from;\n\
\x20   const x = this.layout.x(message.from) + (isLeft ? -BESIDE : BESIDE);\n\
\x20   const { label } = this.layout.drawnOf(message);\n\
\x20   const text = messageText(message);\n\
\x20   const look = joined(\"label\", KINDS[message.type], this.lookOf(message), [text, label].some(this.scene.isFound) && \"found\");\n\
\x20   const drawn = this.words(all, look, x, (message.start ?? 0) - 5, isLeft, [label], message.sent.place, `${text}, ${fateText(message)}`);\n\
\x20   this.labels.set(drawn, message);\n\
\x20 }\n\
\n\
\x20 words(all, look, x, y, isLeft, lines, place, whole) {\n\
\x20   const isChosen = place === this.scene.chosen;\n\
\x20   const drawn = svg(all, \"text\", { class: joined(look, isChosen && \"chosen\"), x: n(x), y: n(y), \"text-anchor\": isLeft ? \"end\" : \"start\" }, lines[0]);\n\
\x20   lines.slice(1).forEach((line) => svg(drawn, \"tspan\", { x: n(x), dy: LINE_STEP }, line));\n\
\x20   svg(drawn, \"title\", {}, whole);\n\
\x20   return drawn;\n\
\x20 }\n\
\n\
\x20 drawMarks(all, row) {\n\
\x20   const { scene } = this;\n\
\x20   for (const { node, y, side, look, lines, text, of } of row.marks) {\n\
\x20     const isLeft = side === \"left\";\n\
\x20     const isNow = scene.event !== null && of.includes(scene.event);\n\
\x20     const isFound = scene.isFound(`${node} ${text}`);\n\
\x20     const looks = joined(\"mark\", look, isNow && \"now\", this.isLater(y - 1) && \"later\", !scene.isKept(of[0]) && \"dim\", isFound && \"found\");\n\
\x20     const whole = [text, ...of.flatMap((event) => event.reasons ?? [])].join(\"\\n\");\n\
\x20     this.words(all, looks, this.layout.x(node) + (isLeft ? -BESIDE : BESIDE), y, isLeft, lines, row.step.place, whole);\n\
\x20   }\n\
\x20 }\n\
\n\
\x20 drawHead(gutter, row) {\n\
\x20   const { place, line, pieces } = row.step;\n\
\x20   const { headLeft } = this.layout;\n\
\x20   const y = row.top + 17;\n\
\x20   svg(gutter, \"text\", { class: joined(\"place\", place === this.scene.chosen && \"chosen\"), x: headLeft - 8, y, \"text-anchor\": \"end\" }, String(line));\n\
\x20   const head = row.step.head.join(\" \");\n\
\x20   const look = joined(\"head\", pieces !== null && \"bad\", this.scene.isFound(head) && \"found\");\n\
\x20   this.words(gutter, look, headLeft, y, false, row.head, place, head);\n\
\x20   row.notes.forEach((note) => this.words(gutter, note.look, headLeft, note.y, false, note.lines, place, note.text));\n\
\x20 }\n\
}\n\
";
