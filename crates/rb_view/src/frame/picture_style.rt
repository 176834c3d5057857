//! The style of a page's picture. Made of assets/picture_style.css by `tests/page/assemble.py sources`.

/// The style.
#[rattlefmt::skip]
pub(crate) const PICTURE_STYLE: &[u8] = b"\
\n\
/* The picture. */\n\
\n\
#picture {\n\
\x20 display: flex;\n\
\x20 flex-direction: column;\n\
}\n\
\n\
#heads {\n\
\x20 position: relative;\n\
\x20 flex: 0 0 42px;\n\
\x20 overflow: hidden;\n\
\x20 border-bottom: 1px solid var(--rule);\n\
\x20 background: var(--panel);\n\
}\n\
\n\
#heads .column {\n\
\x20 position: absolute;\n\
\x20 top: 4px;\n\
\x20 width: 112px;\n\
\x20 margin-left: -56px;\n\
\x20 text-align: center;\n\
\x20 line-height: 17px;\n\
\x20 white-space: nowrap;\n\
}\n\
\n\
#heads .column b {\n\
\x20 display: block;\n\
}\n\
\n\
#heads .gutter {\n\
\x20 position: absolute;\n\
\x20 top: 12px;\n\
\x20 left: 12px;\n\
\x20 color: var(--faint);\n\
}\n\
\n\
#scroll {\n\
\x20 position: relative;\n\
\x20 flex: 1;\n\
\x20 overflow: auto scroll;\n\
}\n\
\n\
#drawing {\n\
\x20 position: sticky;\n\
\x20 top: 0;\n\
\x20 left: 0;\n\
\x20 display: block;\n\
\x20 cursor: pointer;\n\
}\n\
\n\
#extent {\n\
\x20 position: absolute;\n\
\x20 top: 0;\n\
\x20 left: 0;\n\
\x20 pointer-events: none;\n\
}\n\
\n\
#legend {\n\
\x20 border-top: 1px solid var(--rule);\n\
\x20 background: var(--panel);\n\
\x20 color: var(--faint);\n\
\x20 font-size: 11px;\n\
}\n\
\n\
#legend summary {\n\
\x20 padding: 3px 12px;\n\
\x20 cursor: pointer;\n\
}\n\
\n\
#log-signs {\n\
\x20 border-top: 1px solid var(--rule);\n\
\x20 color: var(--faint);\n\
\x20 font-size: 11px;\n\
}\n\
\n\
#log-signs,\n\
#legend-items {\n\
\x20 display: flex;\n\
\x20 flex-wrap: wrap;\n\
\x20 gap: 2px 16px;\n\
\x20 margin: 0;\n\
\x20 padding: 3px 12px;\n\
\x20 list-style: none;\n\
}\n\
\n\
#legend-items svg {\n\
\x20 vertical-align: -2px;\n\
\x20 margin-right: 5px;\n\
}\n\
\n\
#log-signs .sample,\n\
#log-signs del {\n\
\x20 display: inline-block;\n\
\x20 min-width: 18px;\n\
\x20 margin-right: 5px;\n\
\x20 font-family: var(--mono);\n\
\x20 text-align: center;\n\
}\n\
";
