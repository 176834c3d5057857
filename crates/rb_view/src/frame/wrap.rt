//! Code of a page. Texts of the script in lines of a number of columns. Made of assets/wrap.js by `tests/page/assemble.py sources`.

/// The code.
#[rattlefmt::skip]
pub(crate) const WRAP: &[u8] = b"\
\n\
// Texts of the script in lines of a number of columns.\n\
\n\
\n\
const narrow = /^[\\u0000-\\u10ff\\u2000-\\u2bff]*$/;\n\
\n\
function wrapped(text, columns) {\n\
\x20 const most = narrow.test(text) ? columns : Math.floor(columns / 2);\n\
\x20 const pieces = [];\n\
\x20 let from = 0;\n\
\x20 while (text.length - from > most) {\n\
\x20   const rest = text.slice(from, from + most + 1);\n\
\x20   const blank = rest.lastIndexOf(\" \");\n\
\x20   const cut = blank > most / 2 ? blank : beginning(rest, most).length;\n\
\x20   pieces.push({ text: rest.slice(0, cut), from });\n\
\x20   from += text[from + cut] === \" \" ? cut + 1 : cut;\n\
\x20 }\n\
\x20 return [...pieces, { text: text.slice(from), from }];\n\
}\n\
\n\
function paragraphs(lines) {\n\
\x20 const found = [];\n\
\x20 let isOpen = false;\n\
\x20 for (const line of lines) {\n\
\x20   const text = line.trim().replace(/^#+ ?/, \"\");\n\
\x20   if (text && isOpen) {\n\
\x20     found[found.length - 1] += \" \" + text;\n\
\x20   } else if (text) {\n\
\x20     found.push(text);\n\
\x20   }\n\
\x20   isOpen = text !== \"\";\n\
\x20 }\n\
\x20 return found;\n\
}\n\
";
