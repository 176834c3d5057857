//! Code of a page. Starts the page of one run: reads the rows that are in it, and shows them. Made of assets/start.js by `tests/page/assemble.py sources`.

/// The code.
#[rattlefmt::skip]
pub(crate) const START: &[u8] = b"\
\n\
// Starts the page of one run: reads the rows that are in it, and shows them.\n\
\n\
\n\
function start() {\n\
\x20 const notice = byId(\"notice\");\n\
\x20 try {\n\
\x20   const model = readRows(JSON.parse(byId(\"steps\").textContent ?? \"\"));\n\
\x20   document.title = `${model.name}: raftbench`;\n\
\x20   byId(\"name\").textContent = model.name;\n\
\x20   tellCounts(model);\n\
\x20   if (model.steps.length === 0) {\n\
\x20     notice.textContent = \"The script has no directives.\";\n\
\x20     return;\n\
\x20   }\n\
\x20   byId(\"panes\").hidden = false;\n\
\x20   byId(\"keys\").hidden = false;\n\
\x20   byId(\"search\").hidden = false;\n\
\x20   notice.hidden = true;\n\
\x20   makeLegend();\n\
\x20   new Page(model).chooseByAddress();\n\
\x20 } catch (fault) {\n\
\x20   notice.hidden = false;\n\
\x20   notice.textContent = `The page can't be shown: ${fault instanceof Error ? fault.message : fault}.`;\n\
\x20   throw fault;\n\
\x20 }\n\
}\n\
\n\
start();\n\
";
