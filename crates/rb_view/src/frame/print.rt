//! Code of a page. Printing: the script with all outputs, and the whole picture in pieces of at most a page. Made of assets/print.js by `tests/page/assemble.py sources`.

/// The code.
#[rattlefmt::skip]
pub(crate) const PRINT: &[u8] = b"\
\n\
// Printing: the script with all outputs, and the whole picture in pieces of at most a page.\n\
\n\
\n\
\n\
// Of a longer script this many directives are printed, from the chosen one on.\n\
const MOST_PRINTED = 2000;\n\
const PAGE_WIDTH = 700;\n\
const PIECE_HEIGHT = 900;\n\
\n\
function printedStep(step) {\n\
\x20 const comments = paragraphs(step.lead).map((text) => element(\"p\", \"comment\", text));\n\
\x20 const heads = step.head.map((line, at) => element(\"div\", step.pieces ? \"head wrong\" : \"head\", at === 0 ? `${step.line}  ${step.pieces ? \"\xe2\x9c\x97 \" : \"\"}${line}` : line));\n\
\x20 const rest = [...step.warnings.map((text) => element(\"div\", \"warning\", text)), ...step.input.map((line) => element(\"div\", \"input\", line))];\n\
\x20 const below = linesBelow(step, false, -1).map(({ look, text }) => element(\"div\", look, text));\n\
\x20 return element(\"section\", \"\", ...comments, ...heads, ...rest, ...below);\n\
}\n\
\n\
function cutsOf(layout, from, to) {\n\
\x20 const ends = [from];\n\
\x20 let end = from;\n\
\x20 for (const { top, height } of layout.rows) {\n\
\x20   const bottom = top + height;\n\
\x20   if (top >= from && bottom <= to) {\n\
\x20     if (bottom - ends[ends.length - 1] > PIECE_HEIGHT && end > ends[ends.length - 1]) {\n\
\x20       ends.push(end);\n\
\x20     }\n\
\x20     while (bottom - ends[ends.length - 1] > PIECE_HEIGHT) {\n\
\x20       ends.push(ends[ends.length - 1] + PIECE_HEIGHT);\n\
\x20     }\n\
\x20     end = bottom;\n\
\x20   }\n\
\x20 }\n\
\x20 return end > ends[ends.length - 1] ? [...ends, end] : ends;\n\
}\n\
\n\
function printedPiece(layout, top, bottom) {\n\
\x20 const piece = element(\"figure\", \"\");\n\
\x20 const picture = svg(piece, \"svg\", { viewBox: `0 -24 ${layout.width} ${bottom - top + 24}`, width: \"100%\", class: \"drawing\" });\n\
\x20 for (const { id } of layout.model.nodes) {\n\
\x20   svg(picture, \"text\", { class: \"name\", x: layout.x(id), y: -8, \"text-anchor\": \"middle\" }, `node ${id}`);\n\
\x20 }\n\
\x20 const clip = svg(picture, \"svg\", { y: 0, width: layout.width, height: bottom - top, overflow: \"hidden\" });\n\
\x20 clip.append(new Painter(layout, WHOLE).part(top, bottom - 1, 0));\n\
\x20 return piece;\n\
}\n\
\n\
function stretchesOf(layout, steps) {\n\
\x20 const found = [];\n\
\x20 for (const { place } of steps) {\n\
\x20   const { top, height } = layout.rows[place - 1];\n\
\x20   const last = found[found.length - 1];\n\
\x20   if (last && last.to === top) {\n\
\x20     last.to = top + height;\n\
\x20   } else {\n\
\x20     found.push({ from: top, to: top + height });\n\
\x20   }\n\
\x20 }\n\
\x20 return found;\n\
}\n\
\n\
function printedPicture(model, steps) {\n\
\x20 const layout = new Layout(model);\n\
\x20 layout.spread(PAGE_WIDTH);\n\
\x20 return stretchesOf(layout, steps).flatMap(({ from, to }) => {\n\
\x20   const ends = cutsOf(layout, from, to);\n\
\x20   return ends.slice(1).map((end, at) => printedPiece(layout, ends[at], end));\n\
\x20 });\n\
}\n\
\n\
function noteOf(count, left, all, steps) {\n\
\x20 const from = count < left ? ` from line ${steps[0].line} on` : \"\";\n\
\x20 const of = left < all ? ` of ${all}, those that the filters leave` : \"\";\n\
\x20 return from || of ? [element(\"p\", \"\", `${counted(count, \"directive\", \"directives\")}${of}${from}.`)] : [];\n\
}\n\
\n\
function printWhole(shown, after) {\n\
\x20 const room = byId(\"print\");\n\
\x20 window.addEventListener(\"beforeprint\", () => {\n\
\x20   const { model, steps: left, chosen } = shown();\n\
\x20   const rest = left.filter(({ place }) => place >= chosen);\n\
\x20   const steps = (left.length > MOST_PRINTED ? rest : left).slice(0, MOST_PRINTED);\n\
\x20   const hasEnd = steps.length > 0 && steps[steps.length - 1].place === model.steps.length;\n\
\x20   const tail = hasEnd ? paragraphs(model.tail).map((text) => element(\"p\", \"comment\", text)) : [];\n\
\x20   const script = element(\"div\", \"script\", ...steps.map(printedStep), ...tail);\n\
\x20   const pieces = withAttributes(element(\"div\", \"pieces\", ...printedPicture(model, steps)), { \"aria-label\": \"Picture\" });\n\
\x20   room.replaceChildren(element(\"h1\", \"\", model.name), ...noteOf(steps.length, left.length, model.steps.length, steps), script, pieces);\n\
\x20 });\n\
\x20 window.addEventListener(\"afterprint\", () => {\n\
\x20   room.replaceChildren();\n\
\x20   after();\n\
\x20 });\n\
}\n\
";
