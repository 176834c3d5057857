//! The style of a page on paper. Made of assets/paper_style.css by `tests/page/assemble.py sources`.

/// The style.
#[rattlefmt::skip]
pub(crate) const PAPER_STYLE: &[u8] = b"\
\n\
/* On paper: the script with its outputs, and the whole picture, in light colours. */\n\
\n\
@media print {\n\
\x20 @page {\n\
\x20   margin: 14mm;\n\
\x20 }\n\
\n\
\x20 html,\n\
\x20 body {\n\
\x20   display: block;\n\
\x20   height: auto;\n\
\x20 }\n\
\n\
\x20 #top,\n\
\x20 #notice,\n\
\x20 #panes,\n\
\x20 dialog {\n\
\x20   display: none;\n\
\x20 }\n\
\n\
\x20 #print {\n\
\x20   display: block;\n\
\x20   print-color-adjust: exact;\n\
\x20   -webkit-print-color-adjust: exact;\n\
\x20 }\n\
\n\
\x20 #print h1 {\n\
\x20   font-size: 16px;\n\
\x20   overflow-wrap: anywhere;\n\
\x20 }\n\
\n\
\x20 #print .script {\n\
\x20   font: 10px/14px var(--mono);\n\
\x20   overflow-wrap: anywhere;\n\
\x20   white-space: pre-wrap;\n\
\x20 }\n\
\n\
\x20 #print .script section {\n\
\x20   margin-bottom: 6px;\n\
\x20 }\n\
\n\
\x20 #print .comment {\n\
\x20   margin: 6px 0 2px;\n\
\x20   font-style: italic;\n\
\x20   white-space: normal;\n\
\x20 }\n\
\n\
\x20 #print .head {\n\
\x20   font-weight: 700;\n\
\x20   break-after: avoid;\n\
\x20 }\n\
\n\
\x20 #print .input,\n\
\x20 #print .output {\n\
\x20   padding-left: 14px;\n\
\x20 }\n\
\n\
\x20 #print .removed,\n\
\x20 #print .wrong,\n\
\x20 #print .warning {\n\
\x20   color: var(--bad);\n\
\x20 }\n\
\n\
\x20 #print .added {\n\
\x20   color: var(--good);\n\
\x20 }\n\
\n\
\x20 #print figure {\n\
\x20   margin: 0;\n\
\x20   break-inside: avoid;\n\
\x20 }\n\
\n\
\x20 #print .pieces {\n\
\x20   break-before: page;\n\
\x20 }\n\
\n\
\x20 #print .name {\n\
\x20   font-weight: 700;\n\
\x20 }\n\
}\n\
";
