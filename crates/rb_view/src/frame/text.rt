//! Code of a page. Bytes as text that people can read, spelled as `raftbench check` spells them (docs/USING.md). Made of assets/text.js by `tests/page/assemble.py sources`.

/// The code.
#[rattlefmt::skip]
pub(crate) const TEXT: &[u8] = b"\
\n\
// Bytes as text that people can read, spelled as `raftbench check` spells them (docs/USING.md).\n\
\n\
const utf8 = new TextDecoder(\"utf-8\", { fatal: true, ignoreBOM: true });\n\
const printable = /^[\\t\\n -~]*$/;\n\
// Control characters but tabs, ends of lines, and marks that turn the direction of text: a script that has one is shown by numbers.\n\
const acting = /[\\u0000-\\u0008\\u000a-\\u001f\\u007f-\\u009f\\u061c\\u200e\\u200f\\u2028-\\u202e\\u2066-\\u2069\\ufeff]/;\n\
// Other characters that nobody would see.\n\
const unseen = /[\\u00ad\\u200b-\\u200d\\u2060-\\u2065\\u206a-\\u206f]/g;\n\
\n\
let isByNumber = false;\n\
\n\
function decoded(bytes) {\n\
\x20 try {\n\
\x20   return utf8.decode(Uint8Array.from(bytes, (letter) => letter.charCodeAt(0)));\n\
\x20 } catch {\n\
\x20   return null;\n\
\x20 }\n\
}\n\
\n\
function isHarmful(bytes) {\n\
\x20 const text = printable.test(bytes) ? bytes : decoded(bytes);\n\
\x20 return text === null || acting.test(text);\n\
}\n\
\n\
const byNumber = (bytes) => bytes.replace(/[^\\t -\\[\\]-~]/g, (byte) => \"\\\\x\" + byte.charCodeAt(0).toString(16).padStart(2, \"0\"));\n\
\n\
function spellFor(script, name) {\n\
\x20 isByNumber = isHarmful(name) || (!printable.test(script) && script.split(\"\\n\").some((line) => isHarmful(line.replace(/\\r+$/, \"\"))));\n\
}\n\
\n\
function shown(cell) {\n\
\x20 const text = isByNumber ? null : printable.test(cell) ? cell : decoded(cell);\n\
\x20 return text === null ? byNumber(cell) : text.replace(unseen, (letter) => byNumber(String.fromCharCode(...new TextEncoder().encode(letter))));\n\
}\n\
\n\
const shownBody = (cell) => (printable.test(cell) ? cell : shown(cell));\n\
\n\
function beginning(text, most) {\n\
\x20 const isCut = /[\\ud800-\\udbff]/.test(text.charAt(most - 1));\n\
\x20 return text.slice(0, isCut ? most - 1 : most);\n\
}\n\
\n\
function counted(count, one, many) {\n\
\x20 return `${count} ${count === 1 ? one : many}`;\n\
}\n\
";
