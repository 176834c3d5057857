//! Code of a page. Elements, made without marks: each text becomes a text node. Made of assets/dom.js by `tests/page/assemble.py sources`.

/// The code.
#[rattlefmt::skip]
pub(crate) const DOM: &[u8] = b"\
\n\
\"use strict\";\n\
// Elements, made without marks: each text becomes a text node.\n\
\n\
const SVG = \"http://www.w3.org/2000/svg\";\n\
\n\
function byId(id) {\n\
\x20 const found = document.getElementById(id);\n\
\x20 if (!found) {\n\
\x20   throw new Error(`there is no element ${id}`);\n\
\x20 }\n\
\x20 return found;\n\
}\n\
\n\
function element(name, look, ...children) {\n\
\x20 const made = document.createElement(name);\n\
\x20 if (look) {\n\
\x20   made.className = look;\n\
\x20 }\n\
\x20 made.append(...children);\n\
\x20 return made;\n\
}\n\
\n\
function withAttributes(made, attributes) {\n\
\x20 for (const [name, value] of Object.entries(attributes)) {\n\
\x20   made.setAttribute(name, String(value));\n\
\x20 }\n\
\x20 return made;\n\
}\n\
\n\
function svg(parent, name, attributes, text) {\n\
\x20 const made = withAttributes(document.createElementNS(SVG, name), attributes);\n\
\x20 if (text !== undefined) {\n\
\x20   made.textContent = text;\n\
\x20 }\n\
\x20 parent.append(made);\n\
\x20 return made;\n\
}\n\
\n\
function group() {\n\
\x20 return document.createElementNS(SVG, \"g\");\n\
}\n\
";
