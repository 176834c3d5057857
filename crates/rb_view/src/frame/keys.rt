//! Code of a page. Keys and buttons. Made of assets/keys.js by `tests/page/assemble.py sources`.

/// The code.
#[rattlefmt::skip]
pub(crate) const KEYS: &[u8] = b"\
\n\
// Keys and buttons. A key never keeps a reader from scrolling: where the focus is in something that goes on out of view, keys that scroll do so.\n\
\n\
\n\
\n\
const NAMES = { ArrowDown: \"\xe2\x86\x93\", ArrowUp: \"\xe2\x86\x91\", ArrowRight: \"\xe2\x86\x92\", ArrowLeft: \"\xe2\x86\x90\", PageDown: \"Page Down\", PageUp: \"Page Up\", \" \": \"Space\" };\n\
const VERTICAL = [\"ArrowDown\", \"ArrowUp\", \"PageDown\", \"PageUp\", \"Home\", \"End\", \" \"];\n\
const HORIZONTAL = [\"ArrowLeft\", \"ArrowRight\"];\n\
\n\
function scrolls(target, key) {\n\
\x20 let at = target;\n\
\x20 while (at && at !== document.body && at.id !== \"script\") {\n\
\x20   const { overflowX, overflowY } = getComputedStyle(at);\n\
\x20   const isTall = VERTICAL.includes(key) && at.scrollHeight > at.clientHeight + 1 && /auto|scroll/.test(overflowY);\n\
\x20   const isWide = HORIZONTAL.includes(key) && at.scrollWidth > at.clientWidth + 1 && /auto|scroll/.test(overflowX);\n\
\x20   if (isTall || isWide) {\n\
\x20     return true;\n\
\x20   }\n\
\x20   at = at.parentElement;\n\
\x20 }\n\
\x20 return false;\n\
}\n\
\n\
class Keys {\n\
\x20 constructor(commands) {\n\
\x20   this.commands = commands;\n\
\x20   this.help = (byId(\"help\"));\n\
\x20   for (const command of commands) {\n\
\x20     if (command.button) {\n\
\x20       const button = byId(command.button);\n\
\x20       button.addEventListener(\"click\", () => command.does());\n\
\x20       button.setAttribute(\"aria-keyshortcuts\", command.keys.map((key) => (key === \" \" ? \"Space\" : key)).join(\" \"));\n\
\x20     }\n\
\x20   }\n\
\x20   byId(\"help-keys\").append(...commands.map((command) => this.row(command)));\n\
\x20   byId(\"help-close\").addEventListener(\"click\", () => this.help.close());\n\
\x20   document.addEventListener(\"keydown\", (event) => this.pressed(event));\n\
\x20 }\n\
\n\
\x20 row({ keys, says }) {\n\
\x20   const shown = keys.flatMap((key) => [element(\"kbd\", \"\", NAMES[key] ?? key), \" \"]);\n\
\x20   return element(\"tr\", \"\", withAttributes(element(\"th\", \"\", ...shown), { scope: \"row\" }), element(\"td\", \"\", says));\n\
\x20 }\n\
\n\
\x20 showHelp() {\n\
\x20   this.help.showModal();\n\
\x20 }\n\
\n\
\x20 pressed(event) {\n\
\x20   const target = event.target instanceof Element ? event.target : document.body;\n\
\x20   if (event.ctrlKey || event.metaKey || event.altKey || this.help.open || byId(\"panes\").hidden || target.closest(\"input, select, textarea, [contenteditable]\")) {\n\
\x20     return;\n\
\x20   }\n\
\x20   const command = this.commands.find(({ keys }) => keys.includes(event.key));\n\
\x20   const isButton = event.key === \" \" && target.closest(\"button, summary\");\n\
\x20   if (command && !isButton && !scrolls(target, event.key)) {\n\
\x20     event.preventDefault();\n\
\x20     command.does();\n\
\x20   }\n\
\x20 }\n\
}\n\
";
