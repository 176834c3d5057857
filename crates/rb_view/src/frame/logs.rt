//! Code of a page. The logs next to one another: a row a node, a column an index. Made of assets/logs.js by `tests/page/assemble.py sources`.

/// The code.
#[rattlefmt::skip]
pub(crate) const LOGS: &[u8] = b"\
\n\
// The logs next to one another: a row a node, a column an index.\n\
\n\
\n\
\n\
const COLUMNS = 24;\n\
const MORE_COLUMNS = 200;\n\
// Where there are more columns than this, cells have no bodies.\n\
const COLUMNS_WITH_BODIES = 10;\n\
const BODY_LETTERS = 8;\n\
const TERM_COLOURS = 8;\n\
\n\
function shortBody(body) {\n\
\x20 const short = body.replace(/^change \\w+ ?/, \"\xe2\x97\x86 \").trimEnd();\n\
\x20 return short.length > BODY_LETTERS ? beginning(short, BODY_LETTERS - 1) + \"\xe2\x80\xa6\" : short;\n\
}\n\
\n\
class Logs {\n\
\x20 constructor(model) {\n\
\x20   this.model = model;\n\
\x20   this.chosen = { place: 1, event: 0 };\n\
\x20   this.most = COLUMNS;\n\
\x20   this.step = ({ events: [] });\n\
\x20   this.pane = byId(\"logs\");\n\
\x20   this.detail = byId(\"log-detail\");\n\
\x20   this.pane.addEventListener(\"pointerover\", ({ target }) => this.tell((target)));\n\
\x20 }\n\
\n\
\x20 replace(model, position) {\n\
\x20   this.model = model;\n\
\x20   this.choose(position);\n\
\x20 }\n\
\n\
\x20 choose(position) {\n\
\x20   this.most = position.place === this.chosen.place ? this.most : COLUMNS;\n\
\x20   this.chosen = position;\n\
\x20   this.draw();\n\
\x20 }\n\
\n\
\x20 tell(target) {\n\
\x20   this.detail.textContent = target.closest(\"td\")?.querySelector(\".whole\")?.textContent ?? \"\";\n\
\x20 }\n\
\n\
\x20 draw() {\n\
\x20   const instant = instantAt(this.model, this.chosen);\n\
\x20   const before = momentBefore(this.model, this.chosen);\n\
\x20   this.step = instant.step;\n\
\x20   const nodes = this.model.nodes.filter((node) => node.isThereAt(instant.moment));\n\
\x20   const views = this.viewsOfLeader(nodes, instant);\n\
\x20   const lasts = nodes.map((node) => Math.max(node.logAt(instant.moment).last, this.lastBefore(node, before)));\n\
\x20   const last = Math.max(0, ...lasts, ...[...views.views.values()].map(({ next }) => next));\n\
\x20   const least = Math.max(1, Math.min(...nodes.map((node) => node.logAt(instant.moment).base)));\n\
\x20   const first = Math.max(least, last - this.most + 1);\n\
\x20   const columns = Array.from({ length: Math.max(0, last - first + 1) }, (_, at) => first + at);\n\
\x20   const table = element(\"table\", columns.length <= COLUMNS_WITH_BODIES ? \"bodies\" : \"\");\n\
\x20   const caption = views.leader ? `Logs; match and next are those of leader ${views.leader}` : \"Logs\";\n\
\x20   table.append(element(\"caption\", \"unseen\", caption), this.indexes(columns));\n\
\x20   for (const node of nodes) {\n\
\x20     table.append(this.row(node, instant, before, columns));\n\
\x20     const view = views.views.get(node.id);\n\
\x20     table.append(...(view ? [this.marks(view, columns)] : []));\n\
\x20   }\n\
\x20   const earlier = first - least;\n\
\x20   const scrolled = this.pane.scrollWidth - this.pane.scrollLeft - this.pane.clientWidth;\n\
\x20   this.pane.replaceChildren(...(earlier > 0 ? [this.moreButton(earlier)] : []), table);\n\
\x20   this.pane.scrollLeft = this.pane.scrollWidth - this.pane.clientWidth - (this.most > COLUMNS ? scrolled : 0);\n\
\x20   this.detail.textContent = \"\";\n\
\x20 }\n\
\n\
\x20 moreButton(earlier) {\n\
\x20   const more = withAttributes(element(\"button\", \"more\", `\xe2\x80\xa6 ${counted(earlier, \"entry\", \"entries\")} \xe2\x80\xa6`), { type: \"button\" });\n\
\x20   more.addEventListener(\"click\", () => {\n\
\x20     this.most += MORE_COLUMNS;\n\
\x20     this.draw();\n\
\x20   });\n\
\x20   return more;\n\
\x20 }\n\
\n\
\x20 lastBefore(node, before) {\n\
\x20   return node.isThereAt(before) ? node.logAt(before).last : 0;\n\
\x20 }\n\
\n\
\x20 viewsOfLeader(nodes, instant) {\n\
\x20   const views = new Map();\n\
\x20   const leaders = nodes.filter((node) => node.numbersAt(instant.moment).role === \"leader\");\n\
\x20   const [leader] = leaders.sort((one, other) => other.numbersAt(instant.moment).term - one.numbersAt(instant.moment).term);\n\
\x20   for (const [member, history] of leader?.views ?? []) {\n\
\x20     const view = history.at(instant.moment);\n\
\x20     if (view) {\n\
\x20       views.set(member, view);\n\
\x20     }\n\
\x20   }\n\
\x20   return { leader: leader?.id ?? 0, views };\n\
\x20 }\n\
\n\
\x20 indexes(columns) {\n\
\x20   const cells = columns.map((index) => withAttributes(element(\"th\", \"\", String(index)), { scope: \"col\" }));\n\
\x20   return element(\"tr\", \"indexes\", withAttributes(element(\"th\", \"\", \"index\"), { scope: \"row\" }), ...cells);\n\
\x20 }\n\
\n\
\x20 row(node, instant, before, columns) {\n\
\x20   const numbers = numbersOf(node, instant);\n\
\x20   const { role, term } = numbers;\n\
\x20   const head = element(\"th\", \"\", element(\"b\", \"\", `node ${node.id}`), \" \", element(\"span\", `role ${role}`, `${role} t${term}`));\n\
\x20   return element(\"tr\", role, withAttributes(head, { scope: \"row\" }), ...columns.map((index) => this.cell(node, index, numbers, instant.moment, before)));\n\
\x20 }\n\
\n\
\x20 cell(node, index, numbers, moment, before) {\n\
\x20   const { baseTerm, base, last } = node.logAt(moment);\n\
\x20   const edge = index === numbers.commit ? \"edge\" : \"\";\n\
\x20   const gone = index > base ? this.goneEntry(node, index, moment, before) : null;\n\
\x20   const struck = gone ? [this.struck(gone)] : [];\n\
\x20   if (index === base) {\n\
\x20     return this.box([\"base\", edge], baseTerm, \"\", `${baseTerm}/${base}: the base of the log of node ${node.id}`, struck);\n\
\x20   }\n\
\x20   if (index < base || index > last) {\n\
\x20     return element(\"td\", gone ? \"gone\" : \"\", ...struck, ...(gone ? [element(\"span\", \"whole\", this.goneText(gone, index, node.id))] : []));\n\
\x20   }\n\
\x20   const entry = node.entryAt(index, moment);\n\
\x20   const { commit, applied, durable } = numbers;\n\
\x20   const looks = [index <= commit ? \"committed\" : \"\", index <= applied ? \"applied\" : \"\", index > durable ? \"unsaved\" : \"\"].filter(Boolean);\n\
\x20   const isNew = node.isThereAt(before) && (index > this.lastBefore(node, before) || gone !== null);\n\
\x20   const said = [...(index > durable ? [] : [\"durable\"]), ...looks].join(\", \");\n\
\x20   const body = shownBody(entry.body);\n\
\x20   const whole = `${entry.term}/${index} ${body}: ${said}${gone ? `; ${this.goneText(gone, index, node.id)}` : \"\"}`;\n\
\x20   return this.box([...looks, edge, isNew ? \"new\" : \"\", gone ? \"gone\" : \"\"], entry.term, body, whole, struck);\n\
\x20 }\n\
\n\
\x20 goneEntry(node, index, moment, before) {\n\
\x20   if (!node.isThereAt(before) || index > node.logAt(before).last || index <= node.logAt(before).base) {\n\
\x20     return null;\n\
\x20   }\n\
\x20   const old = node.entryAt(index, before);\n\
\x20   const now = index <= node.logAt(moment).last ? node.entryAt(index, moment) : null;\n\
\x20   return now && now.term === old.term && now.body === old.body ? null : old;\n\
\x20 }\n\
\n\
\x20 goneText(gone, index, id) {\n\
\x20   return `${gone.term}/${index} ${shownBody(gone.body)} of node ${id} ${hasRestarted(this.step, id) ? \"was lost\" : \"gave way\"}`;\n\
\x20 }\n\
\n\
\x20 struck(gone) {\n\
\x20   return element(\"del\", `t${gone.term % TERM_COLOURS}`, String(gone.term));\n\
\x20 }\n\
\n\
\x20 box(looks, term, body, whole, struck) {\n\
\x20   const short = shortBody(body);\n\
\x20   const sign = withAttributes(element(\"span\", \"sign\", element(\"b\", \"\", String(term)), ...(short ? [element(\"i\", \"\", short)] : [])), { \"aria-hidden\": \"true\" });\n\
\x20   return element(\"td\", [`t${term % TERM_COLOURS}`, ...looks].filter(Boolean).join(\" \"), ...struck, sign, element(\"span\", \"whole\", whole));\n\
\x20 }\n\
\n\
\x20 marks({ match, next }, columns) {\n\
\x20   const mark = (sign, name) => [withAttributes(element(\"span\", \"\", sign), { \"aria-hidden\": \"true\" }), element(\"span\", \"unseen\", name)];\n\
\x20   const cells = columns.map((index) => {\n\
\x20     return element(\"td\", \"\", ...(index === match ? mark(\"\xe2\x96\xb2\", \"match\") : []), ...(index === next ? mark(\"\xe2\x96\xb3\", \"next\") : []));\n\
\x20   });\n\
\x20   const outside = match < (columns[0] ?? 0) ? `match ${match}` : \"\";\n\
\x20   return element(\"tr\", \"marks\", element(\"td\", \"\", outside), ...cells);\n\
\x20 }\n\
}\n\
";
