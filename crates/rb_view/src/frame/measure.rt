//! Code of a page. How wide texts are, in the letters of the picture, and how they fit into a room. Made of assets/measure.js by `tests/page/assemble.py sources`.

/// The code.
#[rattlefmt::skip]
pub(crate) const MEASURE: &[u8] = b"\
\n\
// How wide texts are, in the letters of the picture, and how they fit into a room.\n\
\n\
\n\
\n\
const pen = (document.createElement(\"canvas\").getContext(\"2d\"));\n\
const family = getComputedStyle(document.body).fontFamily;\n\
const widths = { plain: new Map(), bold: new Map() };\n\
\n\
function widthOf(text, weight = \"plain\") {\n\
\x20 const known = widths[weight];\n\
\x20 const like = text.replace(/[1-9]/g, \"0\");\n\
\x20 let width = known.get(like);\n\
\x20 if (width === undefined) {\n\
\x20   pen.font = `${weight === \"bold\" ? 700 : 400} 11px ${family}`;\n\
\x20   width = pen.measureText(like).width;\n\
\x20   known.set(like, width);\n\
\x20 }\n\
\x20 return width;\n\
}\n\
\n\
function fitted(text, room, weight) {\n\
\x20 if (widthOf(text, weight) <= room) {\n\
\x20   return text;\n\
\x20 }\n\
\x20 let cut = text.length;\n\
\x20 while (cut > 1 && widthOf(beginning(text, cut) + \"\xe2\x80\xa6\", weight) > room) {\n\
\x20   cut -= Math.max(1, Math.floor(cut / 8));\n\
\x20 }\n\
\x20 return beginning(text, cut) + \"\xe2\x80\xa6\";\n\
}\n\
\n\
function brokenAt(text, letters, most) {\n\
\x20 const lines = [];\n\
\x20 let rest = text;\n\
\x20 while (rest.length > letters && lines.length < most - 1) {\n\
\x20   const blank = rest.lastIndexOf(\" \", letters);\n\
\x20   if (blank <= 0) {\n\
\x20     break;\n\
\x20   }\n\
\x20   lines.push(rest.slice(0, blank));\n\
\x20   rest = rest.slice(blank + 1);\n\
\x20 }\n\
\x20 return [...lines, rest.length > letters ? beginning(rest, letters - 1) + \"\xe2\x80\xa6\" : rest];\n\
}\n\
\n\
function folded(text, room, most, weight) {\n\
\x20 if (most === 1 || text.length * 7 < room) {\n\
\x20   return [fitted(text, room, weight)];\n\
\x20 }\n\
\x20 const lines = [];\n\
\x20 let line = \"\";\n\
\x20 const pieces = text.match(/[^ ,]+[ ,]*|[ ,]+/g) ?? [];\n\
\x20 for (const [at, piece] of pieces.entries()) {\n\
\x20   if (line !== \"\" && widthOf((line + piece).trimEnd(), weight) > room) {\n\
\x20     if (lines.length === most - 1) {\n\
\x20       return [...lines, fitted(line + pieces.slice(at).join(\"\"), room, weight)];\n\
\x20     }\n\
\x20     lines.push(fitted(line.trimEnd(), room, weight));\n\
\x20     line = \"\";\n\
\x20   }\n\
\x20   line += piece;\n\
\x20 }\n\
\x20 return [...lines, fitted(line.trimEnd(), room, weight)];\n\
}\n\
";
