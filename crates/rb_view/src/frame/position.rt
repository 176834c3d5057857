//! Code of a page. Positions in a script, and what was so at each of them. Made of assets/position.js by `tests/page/assemble.py sources`.

/// The code.
#[rattlefmt::skip]
pub(crate) const POSITION: &[u8] = b"\
\n\
// Positions in a script, and what was so at each of them.\n\
\n\
\n\
function placesOf(step) {\n\
\x20 return step.events.flatMap(({ name }, at) => (name === \"ready\" ? [] : [at]));\n\
}\n\
\n\
function eventsAt(model, place) {\n\
\x20 const step = model.steps[place - 1];\n\
\x20 return model.hasEvents() && step ? step.events.reduce((count, { name }) => count + (name === \"ready\" ? 0 : 1), 0) : 0;\n\
}\n\
\n\
function after(model, { place, event }) {\n\
\x20 if (event < eventsAt(model, place)) {\n\
\x20   return { place, event: event + 1 };\n\
\x20 }\n\
\x20 return place < model.steps.length ? { place: place + 1, event: Math.min(1, eventsAt(model, place + 1)) } : { place, event };\n\
}\n\
\n\
function before(model, { place, event }) {\n\
\x20 if (event > 1) {\n\
\x20   return { place, event: event - 1 };\n\
\x20 }\n\
\x20 return place > 1 ? { place: place - 1, event: eventsAt(model, place - 1) } : { place, event: Math.min(event, 1) };\n\
}\n\
\n\
\n\
function instantAt(model, { place, event }) {\n\
\x20 const step = model.steps[place - 1];\n\
\x20 const at = event > 0 ? placesOf(step)[event - 1] : -1;\n\
\x20 if (at === undefined || at < 0) {\n\
\x20   const serial = step.serial + step.events.length - 1;\n\
\x20   return { step, at: -1, event: null, moment: step.moment, serial, underway: 0, durable: null, applied: null };\n\
\x20 }\n\
\x20 const chosen = step.events[at];\n\
\x20 const instant = { step, at, event: chosen, moment: 0, serial: step.serial + at, underway: 0, durable: null, applied: null };\n\
\x20 const own = step.groups.filter((group) => group.start <= at).length - 1;\n\
\x20 const { start, moment } = step.groups[own];\n\
\x20 const events = step.events.slice(start, step.groups[own + 1]?.start);\n\
\x20 if (at - start === events.length - 1) {\n\
\x20   return { ...instant, moment };\n\
\x20 }\n\
\x20 if (events[0].name !== \"ready\") {\n\
\x20   return { ...instant, moment: moment - 1 };\n\
\x20 }\n\
\x20 // Entries of a ready become durable and applied one by one; all else changes with its last event.\n\
\x20 for (const { name, cells } of events.slice(0, at - start + 1)) {\n\
\x20   instant.durable = name === \"save\" ? cells[0] : instant.durable;\n\
\x20   instant.applied = name === \"apply\" ? cells[0] : instant.applied;\n\
\x20 }\n\
\x20 return { ...instant, moment: moment - 1, underway: events[0].id };\n\
}\n\
\n\
function momentBefore(model, { place, event }) {\n\
\x20 return event > 1 ? instantAt(model, { place, event: event - 1 }).moment : model.steps[place - 1].before;\n\
}\n\
\n\
function numbersOf(node, { moment, underway, durable, applied }) {\n\
\x20 const numbers = node.numbersAt(moment);\n\
\x20 return node.id === underway ? { ...numbers, durable: durable ?? numbers.durable, applied: applied ?? numbers.applied } : numbers;\n\
}\n\
\n\
function isChanged(node, from, until) {\n\
\x20 const all = [node.numbers, node.config, node.log, ...node.views.values()];\n\
\x20 return all.some((history) => history.changedWithin(from, until));\n\
}\n\
";
