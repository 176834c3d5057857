//! Code of a page. How arrows and bands look. Made of assets/legend.js by `tests/page/assemble.py sources`.

/// The code.
#[rattlefmt::skip]
pub(crate) const LEGEND: &[u8] = b"\
\n\
// How arrows and bands look.\n\
\n\
\n\
const ARROWS = [\n\
\x20 [\"vote\", \"votes\"],\n\
\x20 [\"append\", \"appends\"],\n\
\x20 [\"heartbeat\", \"heartbeats\"],\n\
\x20 [\"snapshot\", \"snapshots\"],\n\
\x20 [\"proposal\", \"handed on\"],\n\
];\n\
const ROLES = [[\"leader\", 5], [\"candidate\", 4], [\"precandidate\", 4], [\"follower\", 2.5]];\n\
const LOG_SIGNS = [\n\
\x20 [\"base\", \"base\"],\n\
\x20 [\"unsaved\", \"unsaved\"],\n\
\x20 [\"\", \"durable\"],\n\
\x20 [\"applied\", \"applied\"],\n\
\x20 [\"edge\", \"commit\"],\n\
];\n\
\n\
function item(text, draw) {\n\
\x20 const made = element(\"li\", \"\");\n\
\x20 draw(svg(made, \"svg\", { width: 30, height: 10, \"aria-hidden\": \"true\" }));\n\
\x20 made.append(text);\n\
\x20 return made;\n\
}\n\
\n\
function makeLegend() {\n\
\x20 const arrows = ARROWS.map(([kind, text]) => {\n\
\x20   return item(text, (picture) => {\n\
\x20     svg(picture, \"path\", { class: `arrow ${kind}`, d: \"M0 5H26\" });\n\
\x20     svg(picture, \"path\", { class: `tip ${kind}`, d: tipAt(30, 5, 1, 0) });\n\
\x20   });\n\
\x20 });\n\
\x20 const lost = item(\"dropped, or given up\", (picture) => {\n\
\x20   svg(picture, \"path\", { class: \"arrow append\", d: \"M0 5H22\" });\n\
\x20   svg(picture, \"path\", { class: \"cross\", d: crossAt(24, 5) });\n\
\x20 });\n\
\x20 const waiting = item(\"still on its way\", (picture) => svg(picture, \"path\", { class: \"arrow append waiting\", d: \"M0 5H30\" }));\n\
\x20 const roles = ROLES.map(([role, half]) => {\n\
\x20   return item(role, (picture) => svg(picture, \"rect\", { class: `band ${role}`, x: 0, y: 5 - half, width: 30, height: 2 * half }));\n\
\x20 });\n\
\x20 const restart = item(\"restart\", (picture) => {\n\
\x20   svg(picture, \"rect\", { class: \"band leader\", x: 0, y: 0, width: 11, height: 10 });\n\
\x20   svg(picture, \"rect\", { class: \"band follower\", x: 19, y: 2.5, width: 11, height: 5 });\n\
\x20 });\n\
\x20 const logs = LOG_SIGNS.map(([look, text]) => element(\"li\", \"\", element(\"span\", `sample ${look}`, \"1\"), text));\n\
\x20 byId(\"legend-items\").append(...arrows, lost, waiting, ...roles, restart);\n\
\x20 byId(\"log-signs\").append(...logs, element(\"li\", \"\", element(\"del\", \"\", \"1\"), \"gave way, or was lost\"), element(\"li\", \"\", \"\xe2\x97\x86 change\"), element(\"li\", \"\", \"\xe2\x96\xb2 match, \xe2\x96\xb3 next: what the leader knows\"));\n\
\x20 (byId(\"legend\")).open = window.matchMedia(\"(min-width: 1100px) and (min-height: 700px)\").matches;\n\
}\n\
";
