//! Code of a page. The page: goes through a run by keys, buttons, clicks and the address. Made of assets/page.js by `tests/page/assemble.py sources`.

/// The code.
#[rattlefmt::skip]
pub(crate) const PAGE: &[u8] = b"\
\n\
// The page: goes through a run by keys, buttons, clicks and the address.\n\
\n\
\n\
\n\
function writeAddress(place) {\n\
\x20 try {\n\
\x20   history.replaceState(null, \"\", place);\n\
\x20 } catch (error) {\n\
\x20   if (!(error instanceof DOMException)) {\n\
\x20     throw error;\n\
\x20   }\n\
\x20 }\n\
}\n\
\n\
class Page {\n\
\x20 constructor(model) {\n\
\x20   this.model = model;\n\
\x20   this.chosen = { place: 0, event: 0 };\n\
\x20   const take = (position) => this.take(position);\n\
\x20   this.search = new Search(model, () => this.refresh());\n\
\x20   const picture = new Picture(model, this.search, (place) => take({ place, event: 0 }));\n\
\x20   const script = new Script(model, this.search, take);\n\
\x20   this.script = script;\n\
\x20   this.parts = [picture, script, new Logs(model), this.makeState(take)];\n\
\x20   this.player = new Player(() => this.goOn());\n\
\x20   this.keys = new Keys(this.commands());\n\
\x20   this.keepFocus();\n\
\x20   printWhole(() => this.shown(), () => picture.placeAgain());\n\
\x20   window.addEventListener(\"hashchange\", () => this.chooseByAddress());\n\
\x20 }\n\
\n\
\x20 shown() {\n\
\x20   const { model, search } = this;\n\
\x20   return { model, steps: model.steps.filter((step) => search.leaves(step)), chosen: this.chosen.place };\n\
\x20 }\n\
\n\
\x20 makeState(take) {\n\
\x20   return new State(this.model, this.search, take);\n\
\x20 }\n\
\n\
\x20 commands() {\n\
\x20   return [\n\
\x20     { keys: [\"ArrowDown\", \"j\"], button: \"next-step\", says: \"the next directive\", does: () => this.step(1) },\n\
\x20     { keys: [\"ArrowUp\", \"k\"], button: \"last-step\", says: \"the directive before\", does: () => this.step(-1) },\n\
\x20     { keys: [\"ArrowRight\", \"l\"], button: \"next-event\", says: \"the next event\", does: () => this.take(after(this.model, this.chosen)) },\n\
\x20     { keys: [\"ArrowLeft\", \"h\"], button: \"last-event\", says: \"the event before\", does: () => this.take(before(this.model, this.chosen)) },\n\
\x20     { keys: [\" \"], button: \"play\", says: \"play, and stop\", does: () => this.player.toggle() },\n\
\x20     { keys: [\"+\", \"=\"], says: \"play faster\", does: () => this.player.change(1) },\n\
\x20     { keys: [\"-\"], says: \"play slower\", does: () => this.player.change(-1) },\n\
\x20     { keys: [\"PageDown\"], says: \"ten directives on, or a page of a long output\", does: () => this.script.scrollWithin(1) || this.step(10) },\n\
\x20     { keys: [\"PageUp\"], says: \"ten directives back, or a page of a long output\", does: () => this.script.scrollWithin(-1) || this.step(-10) },\n\
\x20     { keys: [\"Home\"], says: \"the first directive\", does: () => this.take({ place: 1, event: 0 }) },\n\
\x20     { keys: [\"End\"], says: \"the last directive\", does: () => this.take({ place: this.model.steps.length, event: 0 }) },\n\
\x20     { keys: [\"m\"], button: \"next-mismatch\", says: \"the next mismatch\", does: () => this.takePlace(this.nextMismatch()) },\n\
\x20     { keys: [\"M\"], says: \"the mismatch before\", does: () => this.takePlace(this.lastMismatch()) },\n\
\x20     { keys: [\"o\"], says: \"unfold the equal lines of a mismatch, or fold them\", does: () => this.script.toggleFolds() },\n\
\x20     { keys: [\"/\"], says: \"find a text: Enter finds it, and n and N go on\", does: () => this.search.ask() },\n\
\x20     { keys: [\"n\"], button: \"next-found\", says: \"the next place that was found, or that the filters leave\", does: () => this.find(1) },\n\
\x20     { keys: [\"N\"], button: \"last-found\", says: \"the place before\", does: () => this.find(-1) },\n\
\x20     { keys: [\"?\"], button: \"show-help\", says: \"this list\", does: () => this.keys.showHelp() },\n\
\x20   ];\n\
\x20 }\n\
\n\
\x20 keepFocus() {\n\
\x20   const directives = byId(\"directives\");\n\
\x20   byId(\"drawing\").addEventListener(\"click\", () => directives.focus({ preventScroll: true }));\n\
\x20   byId(\"script\").addEventListener(\"click\", () => directives.focus({ preventScroll: true }));\n\
\x20   byId(\"find\").addEventListener(\"keydown\", ({ key, shiftKey }) => {\n\
\x20     if (key === \"Enter\") {\n\
\x20       this.find(shiftKey ? -1 : 1);\n\
\x20     }\n\
\x20     if (key === \"Enter\" || key === \"Escape\") {\n\
\x20       directives.focus({ preventScroll: true });\n\
\x20     }\n\
\x20   });\n\
\x20   byId(\"search\").addEventListener(\"submit\", (event) => event.preventDefault());\n\
\x20 }\n\
\n\
\x20 // ---- what is chosen\n\
\n\
\x20 take(position) {\n\
\x20   if (this.player.isPlaying()) {\n\
\x20     this.player.stop();\n\
\x20   }\n\
\x20   this.choose(position);\n\
\x20 }\n\
\n\
\x20 takePlace(place) {\n\
\x20   this.take({ place, event: 0 });\n\
\x20 }\n\
\n\
\x20 step(count) {\n\
\x20   this.takePlace(this.chosen.place + count);\n\
\x20 }\n\
\n\
\x20 goOn() {\n\
\x20   const { place, event } = this.chosen;\n\
\x20   this.choose(after(this.model, this.chosen));\n\
\x20   return this.chosen.place !== place || this.chosen.event !== event;\n\
\x20 }\n\
\n\
\x20 find(direction) {\n\
\x20   this.take(this.search.next(this.chosen, direction));\n\
\x20 }\n\
\n\
\x20 within({ place, event }) {\n\
\x20   const chosen = Math.min(Math.max(1, place), this.model.steps.length);\n\
\x20   return { place: chosen, event: Math.min(Math.max(0, event), eventsAt(this.model, chosen)) };\n\
\x20 }\n\
\n\
\x20 choose(wanted) {\n\
\x20   const position = this.within(wanted);\n\
\x20   if (position.place !== this.chosen.place || position.event !== this.chosen.event) {\n\
\x20     this.chosen = position;\n\
\x20     this.refresh();\n\
\x20     this.tell();\n\
\x20   }\n\
\x20 }\n\
\n\
\x20 replace(model, position) {\n\
\x20   this.player.stop();\n\
\x20   this.model = model;\n\
\x20   this.search.replace(model);\n\
\x20   this.chosen = this.within(position);\n\
\x20   this.parts.forEach((part) => part.replace(model, this.chosen));\n\
\x20   this.tell();\n\
\x20 }\n\
\n\
\x20 refresh() {\n\
\x20   this.parts.forEach((part) => part.choose(this.chosen));\n\
\x20 }\n\
\n\
\x20 tell() {\n\
\x20   const { place, event } = this.chosen;\n\
\x20   const { step, event: happened } = instantAt(this.model, this.chosen);\n\
\x20   const events = placesOf(step).map((at) => step.events[at]);\n\
\x20   byId(\"where\").textContent = whereText(this.model, step.line, this.chosen, events.length);\n\
\x20   byId(\"said\").textContent = happened ? eventText(happened) : this.summary(step.head.join(\" \"), events);\n\
\x20   writeAddress(event > 0 ? `#${place}.${event}` : `#${place}`);\n\
\x20 }\n\
\n\
\x20 summary(head, events) {\n\
\x20   const first = events.find(({ name }) => MARKS[name]);\n\
\x20   const mark = first ? `: node ${first.id} ${MARKS[first.name](first.cells)[0]}` : \"\";\n\
\x20   const isWrong = this.model.steps[this.chosen.place - 1].pieces !== null;\n\
\x20   return `${head}, ${counted(events.length, \"event\", \"events\")}${mark}${isWrong ? \", mismatch\" : \"\"}`;\n\
\x20 }\n\
\n\
\x20 // ---- places\n\
\n\
\x20 chooseByAddress() {\n\
\x20   const found = /^#(L?)(\\d+)(?:\\.(\\d+))?$/.exec(location.hash);\n\
\x20   const number = Number(found?.[2]);\n\
\x20   const place = found?.[1] ? this.placeOfLine(number) : number;\n\
\x20   this.choose(found ? { place, event: Number(found[3] ?? 0) } : { place: this.chosen.place || 1, event: this.chosen.event });\n\
\x20 }\n\
\n\
\x20 placeOfLine(line) {\n\
\x20   return this.model.steps.filter(({ first }) => first <= line).length;\n\
\x20 }\n\
\n\
\x20 nextMismatch() {\n\
\x20   const { mismatches } = this.model;\n\
\x20   return mismatches.find((place) => place > this.chosen.place) ?? mismatches[0] ?? this.chosen.place;\n\
\x20 }\n\
\n\
\x20 lastMismatch() {\n\
\x20   const { mismatches } = this.model;\n\
\x20   const earlier = mismatches.filter((place) => place < this.chosen.place);\n\
\x20   return earlier[earlier.length - 1] ?? mismatches[mismatches.length - 1] ?? this.chosen.place;\n\
\x20 }\n\
}\n\
\n\
function whereText(model, line, { place, event }, events) {\n\
\x20 return `step ${place} of ${model.steps.length}, line ${line}${event > 0 ? `, event ${event} of ${events}` : \"\"}`;\n\
}\n\
\n\
function reserveWhere(model) {\n\
\x20 const where = byId(\"where\");\n\
\x20 const told = where.textContent;\n\
\x20 const place = model.steps.length;\n\
\x20 const events = model.hasEvents() ? model.steps.reduce((most, { events: all }) => Math.max(most, all.length), 0) : 0;\n\
\x20 where.style.minWidth = \"\";\n\
\x20 where.textContent = whereText(model, model.steps[place - 1]?.line ?? 0, { place, event: events }, events);\n\
\x20 where.style.minWidth = `${Math.ceil(where.getBoundingClientRect().width)}px`;\n\
\x20 where.textContent = told;\n\
}\n\
\n\
function tellCounts(model) {\n\
\x20 const counts = byId(\"counts\");\n\
\x20 const wrong = counted(model.mismatches.length, \"mismatch\", \"mismatches\");\n\
\x20 counts.textContent = `${counted(model.steps.length, \"directive\", \"directives\")}, ${wrong}, ${counted(model.nodes.length, \"node\", \"nodes\")}`;\n\
\x20 counts.classList.toggle(\"bad\", model.mismatches.length > 0);\n\
\x20 reserveWhere(model);\n\
\x20 byId(\"next-mismatch\").hidden = model.mismatches.length === 0;\n\
}\n\
";
