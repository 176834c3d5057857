//! Code of a page. The line of a message: level under its own label, then straight to its end. Made of assets/route.js by `tests/page/assemble.py sources`.

/// The code.
#[rattlefmt::skip]
pub(crate) const ROUTE: &[u8] = b"\
\n\
// The line of a message: level under its own label, then straight to its end. Where this would strike other texts, it bends at other places,\n\
// and is level again before its end. No text is as far down as its start or its end, so only texts between them can be struck. Places are\n\
// told by how far they are from the sender's band, to the side where the message goes.\n\
\n\
\n\
\n\
// How many rows a line looks at for texts that it would strike, how many texts it takes of them, spread evenly, and how many places it tries\n\
// for a bend.\n\
const MOST_ROWS = 200;\n\
const MOST_TEXTS = 200;\n\
const MOST_BENDS = 24;\n\
\n\
class Route {\n\
\x20 constructor(layout, message, label) {\n\
\x20   this.layout = layout;\n\
\x20   this.message = message;\n\
\x20   this.side = message.to < message.from ? -1 : 1;\n\
\x20   this.lead = BESIDE + widthOf(label) + 4;\n\
\x20   this.top = message.start ?? 0;\n\
\x20   this.bottom = message.end ?? this.top;\n\
\x20   this.texts = [];\n\
\x20 }\n\
\n\
\x20 points() {\n\
\x20   const { message, layout, side } = this;\n\
\x20   const at = (places) => places.map(([place, y]) => [layout.x(message.from) + side * place, y]);\n\
\x20   if (message.fate === \"waiting\" || message.fate === \"given up\") {\n\
\x20     return at([[HALF_BAND, this.top], [this.lead + 4, this.top]]);\n\
\x20   }\n\
\x20   this.texts = this.textsOnTheWay();\n\
\x20   if (message.to === message.from) {\n\
\x20     const far = Math.max(this.lead, ...this.texts.filter((text) => text.start < layout.gap / 2).map((text) => text.end + 5));\n\
\x20     return at([[HALF_BAND, this.top], [far, this.top], [far, this.bottom], [HALF_BAND + 1, this.bottom]]);\n\
\x20   }\n\
\x20   const end = this.end();\n\
\x20   const [first, second] = this.bends(end);\n\
\x20   const after = second < end ? [[second, this.bottom], [end, this.bottom]] : [[end, this.bottom]];\n\
\x20   return at([[HALF_BAND, this.top], [first, this.top], ...after]);\n\
\x20 }\n\
\n\
\x20 end() {\n\
\x20   const { message, layout } = this;\n\
\x20   if (message.to > layout.model.nodes.length) {\n\
\x20     return this.lead + ARROW;\n\
\x20   }\n\
\x20   return Math.abs(message.to - message.from) * layout.gap - HALF_BAND - (message.fate === \"delivered\" ? 1 : 14);\n\
\x20 }\n\
\n\
\x20 textsOnTheWay() {\n\
\x20   const { message, layout, side } = this;\n\
\x20   const first = layout.rowAt(this.top);\n\
\x20   const last = Math.min(layout.rowAt(this.bottom), first + MOST_ROWS);\n\
\x20   const texts = layout.rows.slice(first, last + 1).flatMap((row) => layout.textsOf(row));\n\
\x20   const found = texts.filter((text) => this.isOnTheWay(text));\n\
\x20   const every = Math.ceil(found.length / MOST_TEXTS);\n\
\x20   return found.filter((_, at) => at % every === 0).map((text) => {\n\
\x20     const band = (text.node - message.from) * side * layout.gap;\n\
\x20     const isFarther = text.isLeft === side < 0;\n\
\x20     const near = isFarther ? band + BESIDE - 2 : band - BESIDE - text.width - 2;\n\
\x20     return { start: near, end: near + text.width + 4, top: text.top, bottom: text.bottom };\n\
\x20   });\n\
\x20 }\n\
\n\
\x20 isOnTheWay({ node, isLeft, top, bottom }) {\n\
\x20   const { from, to } = this.message;\n\
\x20   const place = node + (isLeft ? -0.5 : 0.5);\n\
\x20   const isInside = to === from ? node === from && !isLeft : (place - from) * (place - to) < 0;\n\
\x20   return isInside && bottom > this.top && top < this.bottom;\n\
\x20 }\n\
\n\
\x20 bends(end) {\n\
\x20   if (this.struck(this.lead, end) === 0) {\n\
\x20     return [this.lead, end];\n\
\x20   }\n\
\x20   const places = this.places(end);\n\
\x20   let best = [this.lead, end];\n\
\x20   let least = this.cost(this.lead, end, end);\n\
\x20   for (const first of places) {\n\
\x20     for (const second of places) {\n\
\x20       const cost = first < second ? this.cost(first, second, end) : Infinity;\n\
\x20       if (cost < least) {\n\
\x20         least = cost;\n\
\x20         best = [first, second];\n\
\x20       }\n\
\x20     }\n\
\x20   }\n\
\x20   return best;\n\
\x20 }\n\
\n\
\x20 places(end) {\n\
\x20   const near = this.texts.flatMap((text) => [text.start - 1, text.end + 1]).map((place) => 2 * Math.round(place / 2));\n\
\x20   const inside = near.filter((place) => place > this.lead && place < end - 12);\n\
\x20   return [this.lead, ...[...new Set(inside)].slice(0, MOST_BENDS), end].sort((one, other) => one - other);\n\
\x20 }\n\
\n\
\x20 cost(first, second, end) {\n\
\x20   const steep = Math.max(0, 24 - (second - first)) * 2;\n\
\x20   return 1000 * this.struck(first, second) + steep + 0.3 * (first - this.lead) + 0.5 * (end - second);\n\
\x20 }\n\
\n\
\x20 struck(first, second) {\n\
\x20   const slope = (second - first) / Math.max(1, this.bottom - this.top);\n\
\x20   const placeAt = (y) => first + slope * (Math.min(Math.max(y, this.top), this.bottom) - this.top);\n\
\x20   return this.texts.filter(({ start, end, top, bottom }) => placeAt(bottom) > start && placeAt(top) < end).length;\n\
\x20 }\n\
}\n\
";
