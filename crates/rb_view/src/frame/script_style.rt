//! The style of a page's script. Made of assets/script_style.css by `tests/page/assemble.py sources`.

/// The style.
#[rattlefmt::skip]
pub(crate) const SCRIPT_STYLE: &[u8] = b"\
\n\
/* The script: lines of one height, wrapped by the page itself, so that it knows where each stands. */\n\
\n\
#script {\n\
\x20 position: relative;\n\
\x20 overflow: hidden auto;\n\
\x20 border-right: 1px solid var(--rule);\n\
\x20 font: 12px/18px var(--mono);\n\
}\n\
\n\
#script .measure {\n\
\x20 position: absolute;\n\
\x20 visibility: hidden;\n\
}\n\
\n\
/* As high as the whole script, so that the focus doesn't scroll it. */\n\
#directives {\n\
\x20 position: relative;\n\
}\n\
\n\
#directives:focus-visible {\n\
\x20 outline: none;\n\
}\n\
\n\
#texts {\n\
\x20 position: absolute;\n\
\x20 top: 0;\n\
\x20 right: 0;\n\
\x20 left: 0;\n\
}\n\
\n\
.block {\n\
\x20 position: absolute;\n\
\x20 left: 0;\n\
\x20 right: 0;\n\
\x20 padding: 3px 8px 3px 0;\n\
\x20 border-left: 3px solid transparent;\n\
\x20 cursor: pointer;\n\
}\n\
\n\
.block.chosen {\n\
\x20 border-left-color: var(--accent);\n\
\x20 background: var(--chosen);\n\
}\n\
\n\
.block.below {\n\
\x20 padding-top: 0;\n\
}\n\
\n\
.block .row.now {\n\
\x20 background: var(--now);\n\
}\n\
\n\
.block .row.now .text {\n\
\x20 background: var(--now);\n\
\x20 color: var(--ink);\n\
}\n\
\n\
.block .row {\n\
\x20 display: flex;\n\
\x20 height: 18px;\n\
\x20 tab-size: 1;\n\
\x20 white-space: pre;\n\
}\n\
\n\
.block .number {\n\
\x20 flex: 0 0 54px;\n\
\x20 padding-right: 10px;\n\
\x20 color: var(--faint);\n\
\x20 text-align: right;\n\
}\n\
\n\
.block .comment {\n\
\x20 color: var(--faint);\n\
\x20 font-style: italic;\n\
}\n\
\n\
.block .head {\n\
\x20 font-weight: 600;\n\
}\n\
\n\
.block .output {\n\
\x20 color: var(--faint);\n\
}\n\
\n\
.block .wrong,\n\
.block .removed,\n\
.block .warning {\n\
\x20 color: var(--bad);\n\
}\n\
\n\
.block .reason {\n\
\x20 color: var(--snapshot);\n\
}\n\
\n\
.block .fold {\n\
\x20 color: var(--accent);\n\
\x20 text-decoration: underline;\n\
}\n\
\n\
.block .added {\n\
\x20 color: var(--good);\n\
}\n\
\n\
.block .removed {\n\
\x20 background: var(--bad-background);\n\
}\n\
\n\
.block .added {\n\
\x20 background: var(--good-background);\n\
}\n\
\n\
.block .text {\n\
\x20 flex: 1;\n\
\x20 overflow: hidden;\n\
}\n\
";
