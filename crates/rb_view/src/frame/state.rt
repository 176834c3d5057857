//! Code of a page. What is so after the chosen event: what happened, a card a node, and the messages on their way. Made of assets/state.js by `tests/page/assemble.py sources`.

/// The code.
#[rattlefmt::skip]
pub(crate) const STATE: &[u8] = b"\
\n\
// What is so after the chosen event: what happened, a card a node, and the messages on their way. A long list is made as its end comes into\n\
// view.\n\
\n\
\n\
\n\
const MORE_LISTED = 200;\n\
// How many events before the chosen one are listed.\n\
const LISTED_BEFORE = 100;\n\
\n\
class State {\n\
\x20 constructor(model, search, choose) {\n\
\x20   this.model = model;\n\
\x20   this.search = search;\n\
\x20   this.take = choose;\n\
\x20   this.pane = byId(\"state\");\n\
\x20   this.isOpen = false;\n\
\x20   this.growing = new Map();\n\
\x20   this.watch = new IntersectionObserver((seen) => this.came(seen), { root: this.pane, rootMargin: \"600px 0px\" });\n\
\x20   this.pane.addEventListener(\"click\", ({ target }) => {\n\
\x20     const item = ((target).closest(\"li[data-event]\"));\n\
\x20     if (item) {\n\
\x20       this.take({ place: Number(item.dataset.place), event: Number(item.dataset.event) });\n\
\x20     }\n\
\x20   });\n\
\x20 }\n\
\n\
\x20 replace(model, position) {\n\
\x20   this.model = model;\n\
\x20   this.choose(position);\n\
\x20 }\n\
\n\
\x20 choose(position) {\n\
\x20   this.watch.disconnect();\n\
\x20   this.growing.clear();\n\
\x20   const instant = instantAt(this.model, position);\n\
\x20   const before = momentBefore(this.model, position);\n\
\x20   const nodes = this.model.nodes.filter((node) => node.isThereAt(instant.moment));\n\
\x20   const pending = this.model.spans.pendingAfter(position.place, instant.serial);\n\
\x20   const when = position.event > 0 ? `After event ${position.event} of line ${instant.step.line}` : `After line ${instant.step.line}`;\n\
\x20   this.isOpen = this.isOpen || position.event > 0;\n\
\x20   const happened = this.happened(position);\n\
\x20   this.pane.replaceChildren(\n\
\x20     happened,\n\
\x20     element(\"h2\", \"\", when),\n\
\x20     ...nodes.map((node) => this.card(node, instant, before)),\n\
\x20     element(\"h2\", \"\", pending.length === 1 ? \"1 message on its way\" : `${pending.length || \"No\"} messages on their way`),\n\
\x20     this.list(pending, (message) => this.message(message)),\n\
\x20   );\n\
\x20   if (this.isOpen) {\n\
\x20     this.pane.scrollTop = 0;\n\
\x20     const now = happened.querySelector(\".now\");\n\
\x20     const list = happened.querySelector(\"ol\");\n\
\x20     if (now instanceof HTMLElement && list) {\n\
\x20       list.scrollTop = now.offsetTop - list.clientHeight / 2;\n\
\x20     }\n\
\x20   }\n\
\x20 }\n\
\n\
\x20 message(message) {\n\
\x20   return element(\"li\", \"\", messageText(message));\n\
\x20 }\n\
\n\
\x20 happened({ place, event }) {\n\
\x20   const step = this.model.steps[place - 1];\n\
\x20   const { isKept } = this.search.tests();\n\
\x20   const events = placesOf(step).map((at, before) => ({ happened: step.events[at], number: before + 1 }));\n\
\x20   const kept = events.filter(({ happened }) => isKept(happened));\n\
\x20   const start = Math.max(0, kept.findIndex(({ number }) => number >= event) - LISTED_BEFORE);\n\
\x20   const first = event > 0 && kept.length > MORE_LISTED ? start : 0;\n\
\x20   const list = this.list(kept.slice(first), ({ happened, number }) => this.item(happened, place, number, event));\n\
\x20   list.prepend(...(first > 0 ? [element(\"li\", \"quiet\", `${first} before`)] : []));\n\
\x20   const summary = kept.length === events.length ? `What happened (${events.length})` : `What happened (${kept.length} of ${events.length})`;\n\
\x20   const found = (element(\"details\", \"\", element(\"summary\", \"\", summary), list));\n\
\x20   found.setAttribute(\"aria-label\", \"What happened\");\n\
\x20   found.open = this.isOpen;\n\
\x20   found.addEventListener(\"toggle\", () => {\n\
\x20     this.isOpen = found.open;\n\
\x20   });\n\
\x20   return found;\n\
\x20 }\n\
\n\
\x20 item(event, place, number, chosen) {\n\
\x20   const reasons = (event.reasons ?? []).map((reason) => element(\"span\", \"reason\", reason));\n\
\x20   const item = element(\"li\", number === chosen ? \"now\" : \"\", eventText(event), ...reasons);\n\
\x20   if (this.model.hasEvents()) {\n\
\x20     item.dataset.place = String(place);\n\
\x20     item.dataset.event = String(number);\n\
\x20   }\n\
\x20   return number === chosen ? withAttributes(item, { \"aria-current\": \"step\" }) : item;\n\
\x20 }\n\
\n\
\x20 list(things, make) {\n\
\x20   const list = element(\"ol\", \"list\");\n\
\x20   this.addItems(list, things, make, 0);\n\
\x20   return list;\n\
\x20 }\n\
\n\
\x20 addItems(list, things, make, from) {\n\
\x20   const more = things.slice(from, from + MORE_LISTED).map(make);\n\
\x20   const rest = things.length - from - more.length;\n\
\x20   list.append(...more);\n\
\x20   if (rest > 0) {\n\
\x20     const last = element(\"li\", \"quiet\", `and ${rest} more`);\n\
\x20     list.append(last);\n\
\x20     this.growing.set(last, () => this.addItems(list, things, make, from + more.length));\n\
\x20     this.watch.observe(last);\n\
\x20   }\n\
\x20 }\n\
\n\
\x20 came(seen) {\n\
\x20   for (const { isIntersecting, target } of seen) {\n\
\x20     const grow = isIntersecting && this.growing.get(target);\n\
\x20     if (grow) {\n\
\x20       this.watch.unobserve(target);\n\
\x20       this.growing.delete(target);\n\
\x20       target.remove();\n\
\x20       grow();\n\
\x20     }\n\
\x20   }\n\
\x20 }\n\
\n\
\x20 card(node, instant, before) {\n\
\x20   const { role, term, vote, lead, commit, applied, durable, length, end } = numbersOf(node, instant);\n\
\x20   const changed = isChanged(node, before, instant.moment) ? [element(\"span\", \"changed\", \"\xe2\x97\x8f changed\")] : [];\n\
\x20   const facts = `term ${term}, ${vote ? `voted for ${vote}` : \"no vote\"}, ${lead ? `leader ${lead}` : \"no leader\"}`;\n\
\x20   const content = length ? `, content ${counted(length, \"byte\", \"bytes\")}: ${length > end.length ? \"\xe2\x80\xa6\" : \"\"}${shownBody(end)}` : \"\";\n\
\x20   const card = element(\n\
\x20     \"article\",\n\
\x20     `node ${role}`,\n\
\x20     element(\"header\", \"\", element(\"b\", \"\", `node ${node.id}`), element(\"span\", \"role\", role), ...changed),\n\
\x20     element(\"div\", \"\", facts),\n\
\x20     element(\"div\", \"facts\", `commit ${commit}, applied ${applied}, durable ${durable}${content}`),\n\
\x20     element(\"div\", \"facts\", shownBody(node.config.at(instant.moment) ?? \"\")),\n\
\x20     ...this.views(node, instant.moment),\n\
\x20   );\n\
\x20   return withAttributes(card, { \"aria-label\": `node ${node.id}, ${role}, term ${term}` });\n\
\x20 }\n\
\n\
\x20 views(node, moment) {\n\
\x20   const found = [...node.views].flatMap(([member, history]) => {\n\
\x20     const view = history.at(moment);\n\
\x20     return view ? [{ member, view }] : [];\n\
\x20   });\n\
\x20   if (found.length === 0) {\n\
\x20     return [];\n\
\x20   }\n\
\x20   const heads = [\"node\", \"state\", \"match\", \"next\", \"window\"].map((text) => withAttributes(element(\"th\", \"\", text), { scope: \"col\" }));\n\
\x20   const rows = found.sort((one, other) => one.member - other.member).map(({ member, view }) => this.view(member, view));\n\
\x20   return [withAttributes(element(\"table\", \"views\", element(\"tr\", \"\", ...heads), ...rows), { \"aria-label\": `Members by node ${node.id}` })];\n\
\x20 }\n\
\n\
\x20 view(member, { state, match, next, inFlight, isWaiting, pending, isActive }) {\n\
\x20   const waits = state === \"probe\" && isWaiting ? \", waiting\" : state === \"snapshot\" ? ` ${pending}` : \"\";\n\
\x20   const cells = [member, `${state}${waits}${isActive ? \"\" : \", inactive\"}`, match, next, inFlight];\n\
\x20   return element(\"tr\", \"\", ...cells.map((cell) => element(\"td\", \"\", String(cell))));\n\
\x20 }\n\
}\n\
";
