//! Code of a page. The lines below a directive: its output, or how the output differs from what was expected, as `raftbench check` shows it (docs/USING.md). Made of assets/difference.js by `tests/page/assemble.py sources`.

/// The code.
#[rattlefmt::skip]
pub(crate) const DIFFERENCE: &[u8] = b"\
\n\
// The lines below a directive: its output, or how the output differs from what was expected, as `raftbench check` shows it (docs/USING.md).\n\
\n\
\n\
\n\
\n\
// Of more than six equal lines in a row the first three and the last three are shown.\n\
const SHOWN = 3;\n\
\n\
const piecesOf = ({ pieces, output }) => pieces ?? [{ kind: \"same\", count: output.length }];\n\
\n\
const signed = (sign, text) => sign + text + (text === \"\" || /[ \\t$]$/.test(text) || text.startsWith(\".. \") ? \"$\" : \"\");\n\
\n\
function commonLength(one, other) {\n\
\x20 let length = 0;\n\
\x20 while (length < Math.min(one.length, other.length) && one[length] === other[length]) {\n\
\x20   length += 1;\n\
\x20 }\n\
\x20 return length;\n\
}\n\
\n\
function markPair(one, other) {\n\
\x20 const [a, b] = [one.text.slice(2), other.text.slice(2)];\n\
\x20 const front = commonLength(a, b);\n\
\x20 const back = commonLength([...a.slice(front)].reverse().join(\"\"), [...b.slice(front)].reverse().join(\"\"));\n\
\x20 if (front + back > 0) {\n\
\x20   one.range = [2 + front, one.text.length - back];\n\
\x20   other.range = [2 + front, other.text.length - back];\n\
\x20 }\n\
}\n\
\n\
function markPairs(lines) {\n\
\x20 let at = 0;\n\
\x20 while (at < lines.length) {\n\
\x20   const start = at;\n\
\x20   while (lines[at]?.look === \"removed\") {\n\
\x20     at += 1;\n\
\x20   }\n\
\x20   const removed = lines.slice(start, at);\n\
\x20   const middle = at;\n\
\x20   while (lines[at]?.look === \"added\") {\n\
\x20     at += 1;\n\
\x20   }\n\
\x20   const added = lines.slice(middle, at);\n\
\x20   if (removed.length === added.length) {\n\
\x20     removed.forEach((line, pair) => markPair(line, added[pair]));\n\
\x20   }\n\
\x20   at += at === start ? 1 : 0;\n\
\x20 }\n\
}\n\
\n\
function compared(step) {\n\
\x20 const isWrong = step.pieces !== null;\n\
\x20 let at = 0;\n\
\x20 return piecesOf(step).flatMap((piece) => {\n\
\x20   if (piece.kind === \"expected\") {\n\
\x20     return [{ line: { look: \"removed\", text: signed(\"- \", piece.text), event: -1, range: null }, output: -1 }];\n\
\x20   }\n\
\x20   const lines = step.output.slice(at, at + piece.count).map((text, more) => {\n\
\x20     const isAdded = piece.kind === \"actual\";\n\
\x20     const whole = isWrong ? signed(isAdded ? \"+ \" : \"  \", text) : text;\n\
\x20     return { line: { look: isAdded ? \"added\" : \"output\", text: whole, event: -1, range: (null) }, output: at + more };\n\
\x20   });\n\
\x20   at += piece.count;\n\
\x20   return lines;\n\
\x20 });\n\
}\n\
\n\
function remarksOf(step, events) {\n\
\x20 const remarks = new Map();\n\
\x20 const lines = [...events].sort((one, other) => one[1] - other[1]);\n\
\x20 let below = 0;\n\
\x20 step.events.forEach((event, at) => {\n\
\x20   while (below < lines.length && lines[below][1] <= at) {\n\
\x20     below += 1;\n\
\x20   }\n\
\x20   const texts = [...(event.reasons ?? []).map((text) => `^   ${text}`), ...(event.hints ?? [])];\n\
\x20   if (texts.length > 0) {\n\
\x20     const line = below > 0 ? lines[below - 1][0] : step.output.length - 1;\n\
\x20     const more = texts.map((text) => ({ look: \"reason\", text, event: at, range: (null) }));\n\
\x20     remarks.set(line, [...(remarks.get(line) ?? []), ...more]);\n\
\x20   }\n\
\x20 });\n\
\x20 return remarks;\n\
}\n\
\n\
function withFolds(lines, event) {\n\
\x20 const found = [];\n\
\x20 let at = 0;\n\
\x20 while (at < lines.length) {\n\
\x20   const start = at;\n\
\x20   while (lines[at]?.look === \"output\") {\n\
\x20     at += 1;\n\
\x20   }\n\
\x20   const run = lines.slice(start, at);\n\
\x20   const hidden = run.slice(SHOWN, run.length - SHOWN);\n\
\x20   if (run.length > 2 * SHOWN && !hidden.some((line) => event >= 0 && line.event === event)) {\n\
\x20     const fold = { look: \"fold\", text: `  .. ${hidden.length} line${hidden.length === 1 ? \"\" : \"s\"}`, event: -1, range: (null) };\n\
\x20     found.push(...run.slice(0, SHOWN), fold, ...run.slice(run.length - SHOWN));\n\
\x20   } else {\n\
\x20     found.push(...run);\n\
\x20   }\n\
\x20   found.push(...lines.slice(at, at + 1));\n\
\x20   at += 1;\n\
\x20 }\n\
\x20 return found;\n\
}\n\
\n\
function linesBelow(step, isFolded, event) {\n\
\x20 const events = eventsOfLines(step);\n\
\x20 const lines = compared(step);\n\
\x20 lines.forEach(({ line, output }) => {\n\
\x20   line.event = events.get(output) ?? -1;\n\
\x20 });\n\
\x20 markPairs(lines.map(({ line }) => line));\n\
\x20 const remarks = remarksOf(step, events);\n\
\x20 const all = lines.flatMap(({ line, output }) => [line, ...(remarks.get(output) ?? [])]);\n\
\x20 return isFolded && step.pieces ? withFolds(all, event) : all;\n\
}\n\
";
