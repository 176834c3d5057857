//! Code of a page. Finding: a text in all that a page can show, also in what isn't drawn; and filters, by node, by type of message and by term. Made of assets/search.js by `tests/page/assemble.py sources`.

/// The code.
#[rattlefmt::skip]
pub(crate) const SEARCH: &[u8] = b"\
\n\
// Finding: a text in all that a page can show, also in what isn't drawn; and filters, by node, by type of message and by term.\n\
\n\
\n\
\n\
class Search {\n\
\x20 constructor(model, refresh) {\n\
\x20   this.model = model;\n\
\x20   this.needle = \"\";\n\
\x20   this.filters = { node: 0, type: \"\", term: 0 };\n\
\x20   this.marksOf = () => [];\n\
\x20   this.field = (byId(\"find\"));\n\
\x20   this.told = byId(\"found\");\n\
\x20   this.field.addEventListener(\"input\", () => {\n\
\x20     this.needle = this.field.value.toLowerCase();\n\
\x20     this.told.textContent = \"\";\n\
\x20     refresh();\n\
\x20   });\n\
\x20   this.choices = [\"node\", \"type\", \"term\"].map((name) => (byId(`filter-${name}`)));\n\
\x20   for (const field of this.choices) {\n\
\x20     field.addEventListener(\"change\", () => {\n\
\x20       this.readFilters();\n\
\x20       refresh();\n\
\x20     });\n\
\x20   }\n\
\x20   this.replace(model);\n\
\x20 }\n\
\n\
\x20 replace(model) {\n\
\x20   this.model = model;\n\
\x20   this.told.textContent = \"\";\n\
\x20   const terms = new Set(model.nodes.flatMap((node) => node.numbers.values.map(({ term }) => term)).filter(Boolean));\n\
\x20   const types = new Set(model.messages.map(({ type }) => type));\n\
\x20   const values = [model.nodes.map(({ id }) => String(id)), [...types].sort(), [...terms].sort((one, other) => one - other).map(String)];\n\
\x20   this.choices.forEach((field, at) => offerChoices(field, values[at]));\n\
\x20   this.readFilters();\n\
\x20 }\n\
\n\
\x20 readFilters() {\n\
\x20   const [node, type, term] = this.choices.map(({ value }) => value);\n\
\x20   this.filters = { node: Number(node), type, term: Number(term) };\n\
\x20 }\n\
\n\
\x20 ask() {\n\
\x20   this.field.focus();\n\
\x20   this.field.select();\n\
\x20 }\n\
\n\
\x20 isFiltered() {\n\
\x20   const { node, type, term } = this.filters;\n\
\x20   return node > 0 || type !== \"\" || term > 0;\n\
\x20 }\n\
\n\
\x20 tests() {\n\
\x20   const { needle } = this;\n\
\x20   const isFiltered = this.isFiltered();\n\
\x20   return {\n\
\x20     isKept: (event) => !isFiltered || this.isKept(event),\n\
\x20     isFound: (text) => needle !== \"\" && text.toLowerCase().includes(needle),\n\
\x20   };\n\
\x20 }\n\
\n\
\x20 leaves(step) {\n\
\x20   return !this.isFiltered() || placesOf(step).some((at) => this.isKept(step.events[at]));\n\
\x20 }\n\
\n\
\x20 isKept(event) {\n\
\x20   const { node, type, term } = this.filters;\n\
\x20   const subject = subjectOf(event);\n\
\x20   return (!node || subject.nodes.includes(node)) && (!type || subject.type === type) && (!term || subject.term === term);\n\
\x20 }\n\
\n\
\x20 rangesIn(text) {\n\
\x20   const found = [];\n\
\x20   const whole = text.toLowerCase();\n\
\x20   for (let at = this.needle ? whole.indexOf(this.needle) : -1; at >= 0; at = whole.indexOf(this.needle, at + this.needle.length)) {\n\
\x20     found.push({ start: at, end: at + this.needle.length, look: \"found\" });\n\
\x20   }\n\
\x20   return found;\n\
\x20 }\n\
\n\
\x20 foundIn(step) {\n\
\x20   const { isKept, isFound } = this.tests();\n\
\x20   const places = placesOf(step);\n\
\x20   const lines = this.needle ? eventsOfLines(step) : new Map();\n\
\x20   const kept = places.flatMap((at, before) => (isKept(step.events[at]) ? [{ at, number: before + 1 }] : []));\n\
\x20   if (!this.needle) {\n\
\x20     return kept.map(({ number }) => number);\n\
\x20   }\n\
\x20   const textsOf = new Map(kept.map(({ at }) => [at, textsOfEvent(step.events[at])]));\n\
\x20   const others = [...paragraphs(step.lead), ...step.head, ...step.input, ...step.warnings];\n\
\x20   others.push(...(step.place === this.model.steps.length ? paragraphs(this.model.tail) : []));\n\
\x20   others.push(...(step.pieces ?? []).flatMap((piece) => (piece.kind === \"expected\" ? [piece.text] : [])));\n\
\x20   for (const { text, of } of this.marksOf(step)) {\n\
\x20     (textsOf.get(step.events.indexOf(of[0])) ?? others).push(text);\n\
\x20   }\n\
\x20   step.output.forEach((line, at) => (textsOf.get(lines.get(at)) ?? others).push(line));\n\
\x20   const found = kept.filter(({ at }) => textsOf.get(at)?.some(isFound)).map(({ number }) => number);\n\
\x20   return !this.isFiltered() && others.some(isFound) ? [0, ...found] : found;\n\
\x20 }\n\
\n\
\x20 next(position, direction) {\n\
\x20   if (!this.needle && !this.isFiltered()) {\n\
\x20     return position;\n\
\x20   }\n\
\x20   const { steps } = this.model;\n\
\x20   for (let count = 0; count <= steps.length; count += 1) {\n\
\x20     const at = (((position.place - 1 + direction * count) % steps.length) + steps.length) % steps.length;\n\
\x20     const all = this.foundIn(steps[at]);\n\
\x20     const events = this.model.hasEvents() ? all : all.length > 0 ? [0] : [];\n\
\x20     const left = count > 0 ? events : events.filter((event) => direction * (event - position.event) > 0);\n\
\x20     if (left.length > 0) {\n\
\x20       const found = { place: at + 1, event: direction > 0 ? left[0] : left[left.length - 1] };\n\
\x20       const isSame = found.place === position.place && found.event === position.event;\n\
\x20       this.told.textContent = isSame ? \"no other\" : \"\";\n\
\x20       return found;\n\
\x20     }\n\
\x20   }\n\
\x20   this.told.textContent = \"not found\";\n\
\x20   return position;\n\
\x20 }\n\
}\n\
\n\
function textsOfEvent(event) {\n\
\x20 const mark = MARKS[event.name] ? [MARKS[event.name](event.cells)[0]] : [];\n\
\x20 const labels = event.message ? labelsOf(event.message) : [];\n\
\x20 return [eventText(event), ...mark, ...labels, ...(event.reasons ?? []), ...(event.hints ?? [])];\n\
}\n\
\n\
function offerChoices(field, values) {\n\
\x20 const chosen = field.value;\n\
\x20 const none = field.options[0];\n\
\x20 field.replaceChildren(none, ...values.map((value) => withAttributes(element(\"option\", \"\", value.replace(/^Msg/, \"\")), { value })));\n\
\x20 field.value = values.includes(chosen) ? chosen : none.value;\n\
}\n\
";
