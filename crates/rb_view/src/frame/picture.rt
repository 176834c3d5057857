//! Code of a page. The picture on the screen: as much of it as is in view is drawn, again whenever that changes. Made of assets/picture.js by `tests/page/assemble.py sources`.

/// The code.
#[rattlefmt::skip]
pub(crate) const PICTURE: &[u8] = b"\
\n\
// The picture on the screen: as much of it as is in view is drawn, again whenever that changes.\n\
\n\
\n\
\n\
// Browsers give up on boxes that are taller than this, in pixels; a taller picture is scrolled by parts of its height.\n\
const TALLEST = 8_000_000;\n\
\n\
class Picture {\n\
\x20 constructor(model, search, choose) {\n\
\x20   this.layout = new Layout(model);\n\
\x20   this.model = model;\n\
\x20   this.search = search;\n\
\x20   search.marksOf = ({ place }) => this.layout.rows[place - 1].marks;\n\
\x20   this.chosen = { place: 1, event: 0 };\n\
\x20   this.top = this.placed = this.viewWidth = this.viewHeight = 0;\n\
\x20   this.isDrawn = false;\n\
\x20   this.described = \"\";\n\
\x20   this.painter = null;\n\
\x20   this.traced = null;\n\
\x20   this.scroll = byId(\"scroll\");\n\
\x20   this.drawing = byId(\"drawing\");\n\
\x20   this.heads = byId(\"heads\");\n\
\x20   this.description = byId(\"description\");\n\
\x20   this.scroll.addEventListener(\"scroll\", () => this.scrolled());\n\
\x20   this.scroll.addEventListener(\"wheel\", (event) => this.wheeled(event), { passive: false });\n\
\x20   this.drawing.addEventListener(\"click\", (event) => choose(this.layout.rowAt(this.top + event.offsetY) + 1));\n\
\x20   this.drawing.addEventListener(\"pointerover\", ({ target }) => this.trace(target instanceof Element ? target.closest(\"text\") : null));\n\
\x20   new ResizeObserver(() => this.resized()).observe(this.scroll);\n\
\x20   this.gutter = element(\"span\", \"gutter\", \"line, directive\");\n\
\x20   this.columns = this.makeHeads();\n\
\x20   this.resized();\n\
\x20 }\n\
\n\
\x20 makeHeads() {\n\
\x20   this.heads.replaceChildren(this.gutter);\n\
\x20   return this.model.nodes.map((node) => {\n\
\x20     const role = element(\"span\", \"\");\n\
\x20     const column = element(\"div\", \"column\", element(\"b\", \"\", `node ${node.id}`), role);\n\
\x20     this.heads.append(column);\n\
\x20     return { column, role };\n\
\x20   });\n\
\x20 }\n\
\n\
\x20 replace(model, position) {\n\
\x20   this.model = model;\n\
\x20   this.layout = new Layout(model);\n\
\x20   this.chosen = position;\n\
\x20   this.painter = this.traced = null;\n\
\x20   this.described = \"\";\n\
\x20   this.columns = this.makeHeads();\n\
\x20   this.resized();\n\
\x20 }\n\
\n\
\x20 // ---- where it is scrolled to\n\
\n\
\x20 resized() {\n\
\x20   this.viewWidth = this.scroll.clientWidth;\n\
\x20   this.viewHeight = this.scroll.clientHeight;\n\
\x20   this.layout.spread(this.viewWidth);\n\
\x20   this.gutter.hidden = this.layout.isNarrow;\n\
\x20   const extent = byId(\"extent\");\n\
\x20   extent.style.width = `${this.layout.width}px`;\n\
\x20   extent.style.height = `${Math.min(this.layout.height, TALLEST)}px`;\n\
\x20   this.drawing.setAttribute(\"width\", String(this.viewWidth));\n\
\x20   this.drawing.setAttribute(\"height\", String(this.viewHeight));\n\
\x20   this.scrollTo(this.top);\n\
\x20   this.show();\n\
\x20 }\n\
\n\
\x20 placeAgain() {\n\
\x20   this.layout.placeAll();\n\
\x20   this.drawSoon();\n\
\x20 }\n\
\n\
\x20 ratio() {\n\
\x20   const over = this.layout.height - this.viewHeight;\n\
\x20   return Math.max(1, over / Math.max(1, Math.min(this.layout.height, TALLEST) - this.viewHeight));\n\
\x20 }\n\
\n\
\x20 scrollTo(top) {\n\
\x20   this.top = Math.min(Math.max(0, top), Math.max(0, this.layout.height - this.viewHeight));\n\
\x20   this.placed = Math.round(this.top / this.ratio());\n\
\x20   this.scroll.scrollTop = this.placed;\n\
\x20   this.drawSoon();\n\
\x20 }\n\
\n\
\x20 scrolled() {\n\
\x20   if (Math.abs(this.scroll.scrollTop - this.placed) > 1) {\n\
\x20     this.placed = this.scroll.scrollTop;\n\
\x20     this.top = this.placed * this.ratio();\n\
\x20   }\n\
\x20   this.drawSoon();\n\
\x20 }\n\
\n\
\x20 wheeled(event) {\n\
\x20   if (this.ratio() > 1 && event.deltaY) {\n\
\x20     event.preventDefault();\n\
\x20     this.scrollTo(this.top + event.deltaY);\n\
\x20   }\n\
\x20 }\n\
\n\
\x20 choose(position) {\n\
\x20   this.chosen = position;\n\
\x20   this.show();\n\
\x20   this.drawSoon();\n\
\x20 }\n\
\n\
\x20 show() {\n\
\x20   const { step, at } = instantAt(this.model, this.chosen);\n\
\x20   const row = this.layout.rows[this.chosen.place - 1];\n\
\x20   const y = at < 0 ? 0 : this.layout.yOf(step, at);\n\
\x20   const top = at < 0 ? row.top : y - 40;\n\
\x20   const bottom = at < 0 ? row.top + row.height : y + 30;\n\
\x20   const spare = Math.max(0, this.viewHeight - (bottom - top));\n\
\x20   const lowest = Math.min(bottom + 40 - this.viewHeight, top - Math.min(40, spare));\n\
\x20   if (bottom < this.top || top > this.top + this.viewHeight) {\n\
\x20     this.scrollTo(Math.max(lowest, top - this.viewHeight / 3));\n\
\x20   } else if (top < this.top) {\n\
\x20     this.scrollTo(top - 40);\n\
\x20   } else if (bottom > this.top + this.viewHeight) {\n\
\x20     this.scrollTo(lowest);\n\
\x20   }\n\
\x20   this.showNodes(at < 0 ? step.events : [step.events[at]]);\n\
\x20 }\n\
\n\
\x20 showNodes(events) {\n\
\x20   const ids = events.filter((event) => event.message || MARKS[event.name]).map((event) => event.id);\n\
\x20   const places = ids.map((id) => this.layout.x(id) - this.scroll.scrollLeft);\n\
\x20   if (ids.length > 0 && !places.some((place) => place > this.layout.headLeft && place < this.viewWidth - 2 * FREE)) {\n\
\x20     this.scroll.scrollLeft += places[0] - Math.min(LEAST_LEFT, this.viewWidth / 2);\n\
\x20   }\n\
\x20 }\n\
\n\
\x20 // ---- drawing\n\
\n\
\x20 drawSoon() {\n\
\x20   if (!this.isDrawn) {\n\
\x20     this.isDrawn = true;\n\
\x20     requestAnimationFrame(() => {\n\
\x20       this.isDrawn = false;\n\
\x20       this.draw();\n\
\x20     });\n\
\x20   }\n\
\x20 }\n\
\n\
\x20 trace(label) {\n\
\x20   this.traced?.remove();\n\
\x20   const message = label && this.painter?.labels.get(label);\n\
\x20   if (message && this.painter) {\n\
\x20     const lines = new Paths();\n\
\x20     this.traced = svg(this.painter.arrows, \"g\", { class: \"traced\" });\n\
\x20     this.painter.drawArrow(lines, message);\n\
\x20     lines.draw(this.traced);\n\
\x20   }\n\
\x20 }\n\
\n\
\x20 draw() {\n\
\x20   const left = this.scroll.scrollLeft;\n\
\x20   const instant = instantAt(this.model, this.chosen);\n\
\x20   const now = instant.event ? this.layout.yOf(instant.step, instant.at) : null;\n\
\x20   const { isKept, isFound } = this.search.tests();\n\
\x20   this.painter = new Painter(this.layout, { chosen: this.chosen.place, now, serial: instant.serial, event: instant.event, isKept, isFound });\n\
\x20   const bottom = this.top + this.viewHeight;\n\
\x20   this.drawing.replaceChildren(this.painter.part(this.top, bottom, left));\n\
\x20   this.drawHeads(left, instant);\n\
\x20   this.describe();\n\
\x20 }\n\
\n\
\x20 describe() {\n\
\x20   const [first, last] = [this.layout.rowAt(this.top), this.layout.rowAt(this.top + this.viewHeight)];\n\
\x20   if (this.described !== `${first} ${last}`) {\n\
\x20     this.described = `${first} ${last}`;\n\
\x20     const lines = descriptionOf(this.model, this.layout.rows.slice(first, last + 1));\n\
\x20     this.description.replaceChildren(...lines.map((line) => element(\"p\", \"\", line)));\n\
\x20   }\n\
\x20 }\n\
\n\
\x20 drawHeads(left, instant) {\n\
\x20   this.columns.forEach(({ column, role }, at) => {\n\
\x20     const node = this.model.nodes[at];\n\
\x20     const x = this.layout.x(at + 1) - left;\n\
\x20     column.style.left = `${x}px`;\n\
\x20     column.hidden = left > 0 && x < this.layout.left - BESIDE;\n\
\x20     if (node.isThereAt(instant.moment)) {\n\
\x20       const { role: name, term } = numbersOf(node, instant);\n\
\x20       role.textContent = `${name} t${term}`;\n\
\x20     } else {\n\
\x20       role.textContent = \"\";\n\
\x20     }\n\
\x20   });\n\
\x20 }\n\
}\n\
";
