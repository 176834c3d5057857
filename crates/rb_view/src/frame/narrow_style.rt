//! The style of a page on a narrow screen. Made of assets/narrow_style.css by `tests/page/assemble.py sources`.

/// The style.
#[rattlefmt::skip]
pub(crate) const NARROW_STYLE: &[u8] = b"\
\n\
@media screen and (max-width: 1000px) {\n\
\x20 #panes {\n\
\x20   grid-template-columns: minmax(240px, 36%) minmax(0, 1fr);\n\
\x20   grid-template-rows: minmax(0, 2fr) minmax(0, 1fr);\n\
\x20 }\n\
\n\
\x20 #state {\n\
\x20   grid-column: 1 / -1;\n\
\x20   border-left: none;\n\
\x20   border-top: 1px solid var(--rule);\n\
\x20 }\n\
\n\
\x20 #keys {\n\
\x20   margin-left: 0;\n\
\x20 }\n\
}\n\
\n\
/* Below the picture, what happened is next to the cards. */\n\
\n\
@media screen and (min-width: 700px) and (max-width: 1000px) {\n\
\x20 #state details[open] {\n\
\x20   float: left;\n\
\x20   width: 32%;\n\
\x20   margin-right: 14px;\n\
\x20 }\n\
\n\
\x20 #state details[open] + h2:not(:first-child) {\n\
\x20   margin-top: 0;\n\
\x20 }\n\
\n\
\x20 .node {\n\
\x20   display: inline-block;\n\
\x20   width: calc(34% - 16px);\n\
\x20   margin-right: 8px;\n\
\x20   vertical-align: top;\n\
\x20 }\n\
\n\
\x20 .views th,\n\
\x20 .views td {\n\
\x20   padding-right: 3px;\n\
\x20 }\n\
}\n\
\n\
/* On a narrow screen the panes are below one another, and the page scrolls. */\n\
\n\
@media screen and (max-width: 699px) {\n\
\x20 html,\n\
\x20 body {\n\
\x20   height: auto;\n\
\x20 }\n\
\n\
\x20 #top {\n\
\x20   position: sticky;\n\
\x20   top: 0;\n\
\x20   z-index: 2;\n\
\x20   padding: 5px 8px;\n\
\x20   background: var(--background);\n\
\x20 }\n\
\n\
\x20 #counts {\n\
\x20   display: none;\n\
\x20 }\n\
\n\
\x20 #search select {\n\
\x20   max-width: 62px;\n\
\x20 }\n\
\n\
\x20 #panes {\n\
\x20   display: block;\n\
\x20 }\n\
\n\
\x20 #script {\n\
\x20   height: 36vh;\n\
\x20   border-right: none;\n\
\x20 }\n\
\n\
\x20 #picture {\n\
\x20   height: 92vh;\n\
\x20   border-top: 1px solid var(--rule);\n\
\x20 }\n\
\n\
\x20 #state {\n\
\x20   overflow: visible;\n\
\x20 }\n\
}\n\
";
