//! Code of a page. The script: comments, directives, and below the chosen one its output. Made of assets/script.js by `tests/page/assemble.py sources`.

/// The code.
#[rattlefmt::skip]
pub(crate) const SCRIPT: &[u8] = b"\
\n\
// The script: comments, directives, and below the chosen one its output. Lines are wrapped here, at a number of letters, so that the height\n\
// of each block is known before it is drawn, and only the rows in view are drawn.\n\
\n\
\n\
\n\
const LINE = 18;\n\
const BLOCK_EDGE = 6;\n\
const NUMBER_WIDTH = 54;\n\
\n\
class Script {\n\
\x20 constructor(model, search, choose) {\n\
\x20   this.model = model;\n\
\x20   this.search = search;\n\
\x20   this.take = choose;\n\
\x20   this.chosen = { place: 1, event: 0 };\n\
\x20   this.isFolded = true;\n\
\x20   this.letters = 0;\n\
\x20   this.more = 0;\n\
\x20   this.tops = [0];\n\
\x20   this.chosenRows = [];\n\
\x20   this.pane = byId(\"script\");\n\
\x20   this.list = byId(\"directives\");\n\
\x20   this.texts = byId(\"texts\");\n\
\x20   this.pane.addEventListener(\"scroll\", () => this.draw());\n\
\x20   this.pane.addEventListener(\"click\", ({ target }) => this.clicked((target)));\n\
\x20   new ResizeObserver(() => this.resized()).observe(this.pane);\n\
\x20   this.resized();\n\
\x20 }\n\
\n\
\x20 replace(model, position) {\n\
\x20   this.isFolded = this.isFolded || position.place !== this.chosen.place;\n\
\x20   this.model = model;\n\
\x20   this.chosen = position;\n\
\x20   this.measure();\n\
\x20   this.show();\n\
\x20   this.draw();\n\
\x20 }\n\
\n\
\x20 clicked(target) {\n\
\x20   const row = (target.closest(\"[data-event]\"));\n\
\x20   const block = (target.closest(\".block\"));\n\
\x20   if (target.closest(\".fold\")) {\n\
\x20     this.toggleFolds();\n\
\x20   } else if (block?.dataset.place) {\n\
\x20     this.take({ place: Number(block.dataset.place), event: Number(row?.dataset.event ?? 0) });\n\
\x20   }\n\
\x20 }\n\
\n\
\x20 toggleFolds() {\n\
\x20   this.isFolded = !this.isFolded;\n\
\x20   this.refresh();\n\
\x20 }\n\
\n\
\x20 letterWidth() {\n\
\x20   const measure = element(\"span\", \"measure\", \"0\".repeat(100));\n\
\x20   this.pane.append(measure);\n\
\x20   const width = measure.getBoundingClientRect().width / 100;\n\
\x20   measure.remove();\n\
\x20   return width;\n\
\x20 }\n\
\n\
\x20 resized() {\n\
\x20   const room = this.pane.clientWidth - NUMBER_WIDTH - 14;\n\
\x20   const letters = Math.max(16, Math.floor(room / this.letterWidth()));\n\
\x20   if (letters !== this.letters) {\n\
\x20     this.letters = letters;\n\
\x20     this.measure();\n\
\x20   }\n\
\x20   this.show();\n\
\x20   this.draw();\n\
\x20 }\n\
\n\
\x20 // ---- rows and heights\n\
\n\
\x20 rowsOfComment(lines) {\n\
\x20   const rows = paragraphs(lines).flatMap((text) => [...wrapped(text, this.letters), { text: \"\", from: 0 }]);\n\
\x20   return rows.slice(0, -1).map(({ text, from }) => ({ look: \"comment\", text, from, line: null }));\n\
\x20 }\n\
\n\
\x20 rowsOf(step) {\n\
\x20   const isWrong = step.pieces !== null;\n\
\x20   const heads = step.head.map((line, at) => (isWrong && at === 0 ? \"\xe2\x9c\x97 \" : \"\") + line);\n\
\x20   const head = isWrong ? \"head wrong\" : \"head\";\n\
\x20   return [\n\
\x20     ...heads.flatMap((text) => this.rowsOfLine(head, text, null)),\n\
\x20     ...step.warnings.flatMap((text) => this.rowsOfLine(\"warning\", `\xe2\x9a\xa0 ${text}`, null)),\n\
\x20     ...step.input.flatMap((text) => this.rowsOfLine(\"input\", text, null)),\n\
\x20   ];\n\
\x20 }\n\
\n\
\x20 rowsOfLine(look, text, line) {\n\
\x20   return wrapped(text, this.letters).map((piece) => ({ look, line, ...piece }));\n\
\x20 }\n\
\n\
\x20 measure() {\n\
\x20   this.tops = [0];\n\
\x20   const add = (rows) => this.tops.push(this.tops[this.tops.length - 1] + (rows ? rows * LINE + BLOCK_EDGE : 0));\n\
\x20   for (const step of this.model.steps) {\n\
\x20     add(this.rowsOfComment(step.lead).length);\n\
\x20     add(this.rowsOf(step).length);\n\
\x20   }\n\
\x20   add(this.rowsOfComment(this.model.tail).length);\n\
\x20   this.fit();\n\
\x20 }\n\
\n\
\x20 fit() {\n\
\x20   const at = 2 * this.chosen.place - 1;\n\
\x20   const { step, at: event } = instantAt(this.model, this.chosen);\n\
\x20   const below = linesBelow(step, this.isFolded, event).flatMap((line) => this.rowsOfLine(line.look, line.text, line));\n\
\x20   this.chosenRows = [...this.rowsOf(step), ...below];\n\
\x20   this.more = this.chosenRows.length * LINE + BLOCK_EDGE - (this.tops[at + 1] - this.tops[at]);\n\
\x20   this.list.style.height = `${this.tops[this.tops.length - 1] + this.more + 40}px`;\n\
\x20 }\n\
\n\
\x20 topOf(at) {\n\
\x20   return this.tops[at] + (at > 2 * this.chosen.place - 1 ? this.more : 0);\n\
\x20 }\n\
\n\
\x20 // ---- what is in view\n\
\n\
\x20 choose(position) {\n\
\x20   this.isFolded = this.isFolded || position.place !== this.chosen.place;\n\
\x20   this.chosen = position;\n\
\x20   this.refresh();\n\
\x20 }\n\
\n\
\x20 refresh() {\n\
\x20   this.fit();\n\
\x20   this.show();\n\
\x20   this.draw();\n\
\x20 }\n\
\n\
\x20 show() {\n\
\x20   const own = this.topOf(2 * this.chosen.place - 1);\n\
\x20   const [first, last] = this.rowsOfEvent();\n\
\x20   const above = first < 0 ? this.topOf(2 * this.chosen.place - 2) : own + first * LINE;\n\
\x20   const start = first < 0 ? own : own + first * LINE;\n\
\x20   const below = first < 0 ? this.topOf(2 * this.chosen.place) : own + (last + 1) * LINE;\n\
\x20   const top = this.pane.scrollTop;\n\
\x20   const height = this.pane.clientHeight;\n\
\x20   const spare = Math.max(0, height - (below - start));\n\
\x20   const lowest = Math.min(below - height + 60, start - Math.min(20, spare));\n\
\x20   if (below < top || above > top + height) {\n\
\x20     this.pane.scrollTop = Math.max(lowest, above - height / 3);\n\
\x20   } else if (above < top) {\n\
\x20     this.pane.scrollTop = above - 20;\n\
\x20   } else if (below > top + height) {\n\
\x20     this.pane.scrollTop = lowest;\n\
\x20   }\n\
\x20 }\n\
\n\
\x20 rowsOfEvent() {\n\
\x20   const { at } = instantAt(this.model, this.chosen);\n\
\x20   const isOwn = ({ line }) => at >= 0 && line !== null && line.event === at;\n\
\x20   const first = this.chosenRows.findIndex(isOwn);\n\
\x20   return first < 0 ? [-1, -1] : [first, this.chosenRows.length - 1 - [...this.chosenRows].reverse().findIndex(isOwn)];\n\
\x20 }\n\
\n\
\x20 scrollWithin(direction) {\n\
\x20   const { scrollTop, clientHeight } = this.pane;\n\
\x20   const own = this.topOf(2 * this.chosen.place - 1);\n\
\x20   const over = direction > 0 ? this.topOf(2 * this.chosen.place) - (scrollTop + clientHeight) : scrollTop - own;\n\
\x20   if (over > 0) {\n\
\x20     this.pane.scrollTop += direction * Math.min(over + LINE, clientHeight - 2 * LINE);\n\
\x20   }\n\
\x20   return over > 0;\n\
\x20 }\n\
\n\
\x20 // ---- drawing\n\
\n\
\x20 draw() {\n\
\x20   const top = this.pane.scrollTop;\n\
\x20   const bottom = top + this.pane.clientHeight;\n\
\x20   const places = new Set([2 * this.chosen.place - 1]);\n\
\x20   let at = Math.max(0, firstAbove(this.tops, top - Math.max(0, this.more)) - 1);\n\
\x20   for (; at < this.tops.length - 1 && this.topOf(at) <= bottom; at += 1) {\n\
\x20     if (this.topOf(at + 1) >= top && this.topOf(at + 1) > this.topOf(at)) {\n\
\x20       places.add(at);\n\
\x20     }\n\
\x20   }\n\
\x20   const options = [];\n\
\x20   const texts = [];\n\
\x20   for (const place of [...places].sort((one, other) => one - other)) {\n\
\x20     this.drawBlock(place, top, bottom, options, texts);\n\
\x20   }\n\
\x20   this.list.replaceChildren(...options);\n\
\x20   this.texts.replaceChildren(...texts);\n\
\x20   this.list.setAttribute(\"aria-activedescendant\", `directive-${this.chosen.place}`);\n\
\x20 }\n\
\n\
\x20 drawBlock(at, top, bottom, options, texts) {\n\
\x20   const step = this.model.steps[at >> 1];\n\
\x20   const isDirective = at % 2 === 1;\n\
\x20   const isChosen = isDirective && step.place === this.chosen.place;\n\
\x20   const rows = isChosen ? this.chosenRows : isDirective ? this.rowsOf(step) : this.rowsOfComment(step ? step.lead : this.model.tail);\n\
\x20   const own = isChosen ? rows.filter(({ line }) => line === null).length : rows.length;\n\
\x20   const first = Math.max(0, Math.floor((top - this.topOf(at)) / LINE) - 1);\n\
\x20   const last = Math.max(0, Math.ceil((bottom - this.topOf(at)) / LINE));\n\
\x20   const block = this.box(at, this.topOf(at), rows.length, isChosen ? \"block chosen\" : \"block\");\n\
\x20   block.append(...this.rowElements(rows, isDirective ? 0 : first, Math.min(own - 1, isDirective ? own : last), isDirective ? step : null));\n\
\x20   (isDirective ? options : texts).push(block);\n\
\x20   if (isDirective) {\n\
\x20     withAttributes(block, {\n\
\x20       id: `directive-${step.place}`, role: \"option\", \"aria-selected\": String(isChosen), \"aria-setsize\": this.model.steps.length, \"aria-posinset\": step.place,\n\
\x20     });\n\
\x20     block.append(...(step.pieces ? [element(\"span\", \"unseen\", \", mismatch\")] : []));\n\
\x20   } else if (step) {\n\
\x20     block.id = `comment-${step.place}`;\n\
\x20   }\n\
\x20   if (isChosen && rows.length > own) {\n\
\x20     const below = this.box(at, this.topOf(at) + own * LINE, rows.length - own, \"block below\");\n\
\x20     withAttributes(below, { role: \"group\", \"aria-label\": `Output of line ${step.line}` });\n\
\x20     below.append(...this.rowElements(rows, Math.max(own, first), Math.max(own, last), null, own));\n\
\x20     texts.push(below);\n\
\x20   }\n\
\x20 }\n\
\n\
\x20 box(at, top, rows, look) {\n\
\x20   const block = element(\"div\", look);\n\
\x20   block.style.top = `${top}px`;\n\
\x20   block.style.height = `${rows * LINE + BLOCK_EDGE}px`;\n\
\x20   const step = this.model.steps[at >> 1];\n\
\x20   if (step) {\n\
\x20     block.dataset.place = String(step.place);\n\
\x20   }\n\
\x20   return block;\n\
\x20 }\n\
\n\
\x20 rowElements(rows, first, last, step, start = 0) {\n\
\x20   const { at, step: chosen } = instantAt(this.model, this.chosen);\n\
\x20   const places = this.model.hasEvents() ? placesOf(chosen) : [];\n\
\x20   const drawn = rows.slice(first, last + 1).map((row, more) => {\n\
\x20     const isNow = at >= 0 && row.line !== null && row.line.event === at;\n\
\x20     const number = step && first + more === 0 ? String(step.line) : \"\";\n\
\x20     const made = element(\"div\", isNow ? \"row now\" : \"row\", element(\"span\", \"number\", number), this.text(row));\n\
\x20     const event = row.line ? places.indexOf(row.line.event) : -1;\n\
\x20     if (event >= 0) {\n\
\x20       made.dataset.event = String(event + 1);\n\
\x20     }\n\
\x20     if (isNow) {\n\
\x20       made.setAttribute(\"aria-current\", \"step\");\n\
\x20     }\n\
\x20     return made;\n\
\x20   });\n\
\x20   if (drawn.length > 0 && first > start) {\n\
\x20     drawn[0].style.marginTop = `${(first - start) * LINE}px`;\n\
\x20   }\n\
\x20   return drawn;\n\
\x20 }\n\
\n\
\x20 text({ look, text, from, line }) {\n\
\x20   const made = element(\"span\", `text ${look}`);\n\
\x20   const ranges = [...this.search.rangesIn(text)];\n\
\x20   if (line?.range) {\n\
\x20     ranges.push({ start: line.range[0] - from, end: line.range[1] - from, look: \"differs\" });\n\
\x20   }\n\
\x20   let at = 0;\n\
\x20   for (const { start, end, look: marked } of ranges.sort((one, other) => one.start - other.start)) {\n\
\x20     const first = Math.max(at, Math.min(start, text.length));\n\
\x20     const last = Math.max(first, Math.min(end, text.length));\n\
\x20     made.append(text.slice(at, first), ...(last > first ? [element(\"mark\", marked, text.slice(first, last))] : []));\n\
\x20     at = last;\n\
\x20   }\n\
\x20   made.append(text.slice(at));\n\
\x20   return made;\n\
\x20 }\n\
}\n\
";
