//! The style of what stands after the chosen directive. Made of assets/after_style.css by `tests/page/assemble.py sources`.

/// The style.
#[rattlefmt::skip]
pub(crate) const AFTER_STYLE: &[u8] = b"\
\n\
/* What stands after the chosen directive. */\n\
\n\
#state {\n\
\x20 overflow: hidden auto;\n\
\x20 padding: 10px 14px 24px;\n\
\x20 border-left: 1px solid var(--rule);\n\
\x20 background: var(--panel);\n\
}\n\
\n\
#state h2 {\n\
\x20 margin: 0 0 6px;\n\
\x20 font-size: 13px;\n\
}\n\
\n\
#state h2:not(:first-child) {\n\
\x20 margin-top: 16px;\n\
}\n\
\n\
#state .quiet {\n\
\x20 color: var(--faint);\n\
}\n\
\n\
.node {\n\
\x20 margin-bottom: 8px;\n\
\x20 padding: 7px 10px;\n\
\x20 border: 1px solid var(--rule);\n\
\x20 border-left: 4px solid var(--follower);\n\
\x20 border-radius: 6px;\n\
\x20 background: var(--background);\n\
}\n\
\n\
.node.leader {\n\
\x20 border-left-color: var(--leader);\n\
}\n\
\n\
.node.candidate {\n\
\x20 border-left-color: var(--candidate);\n\
}\n\
\n\
.node.precandidate {\n\
\x20 border-left-color: var(--precandidate);\n\
}\n\
\n\
.node header {\n\
\x20 display: flex;\n\
\x20 flex-wrap: wrap;\n\
\x20 align-items: baseline;\n\
\x20 gap: 0 8px;\n\
}\n\
\n\
.node .role,\n\
#logs .role {\n\
\x20 padding: 0 7px;\n\
\x20 border-radius: 9px;\n\
\x20 background: var(--follower);\n\
\x20 color: var(--on-follower);\n\
\x20 font-size: 11px;\n\
\x20 font-weight: 600;\n\
\x20 line-height: 17px;\n\
}\n\
\n\
.node.leader .role,\n\
#logs .role.leader {\n\
\x20 background: var(--leader);\n\
\x20 color: var(--background);\n\
}\n\
\n\
.node.candidate .role,\n\
#logs .role.candidate {\n\
\x20 background: var(--candidate);\n\
\x20 color: var(--on-candidate);\n\
}\n\
\n\
.node.precandidate .role,\n\
#logs .role.precandidate {\n\
\x20 background: var(--precandidate);\n\
\x20 color: var(--on-candidate);\n\
}\n\
\n\
.node .changed {\n\
\x20 margin-left: auto;\n\
\x20 color: var(--accent);\n\
\x20 font-size: 11px;\n\
}\n\
\n\
.node .facts,\n\
.node .content {\n\
\x20 color: var(--faint);\n\
\x20 overflow-wrap: anywhere;\n\
}\n\
\n\
.views {\n\
\x20 width: 100%;\n\
\x20 margin-top: 5px;\n\
\x20 border-collapse: collapse;\n\
\x20 font-size: 11px;\n\
\x20 font-variant-numeric: tabular-nums;\n\
}\n\
\n\
.views th {\n\
\x20 color: var(--faint);\n\
\x20 font-weight: 400;\n\
}\n\
\n\
.views th,\n\
.views td {\n\
\x20 padding: 0 6px 0 0;\n\
\x20 text-align: left;\n\
}\n\
\n\
#state .list {\n\
\x20 margin: 0;\n\
\x20 padding: 0;\n\
\x20 font: 11px/17px var(--mono);\n\
\x20 list-style: none;\n\
}\n\
\n\
#state .list li {\n\
\x20 padding: 0 4px;\n\
\x20 overflow-wrap: anywhere;\n\
}\n\
\n\
#state .list li[data-event] {\n\
\x20 cursor: pointer;\n\
}\n\
\n\
#state .list li.now {\n\
\x20 background: var(--now);\n\
\x20 font-weight: 600;\n\
}\n\
\n\
#state .list .reason {\n\
\x20 display: block;\n\
\x20 padding-left: 14px;\n\
\x20 color: var(--snapshot);\n\
}\n\
\n\
#state details .list {\n\
\x20 position: relative;\n\
\x20 max-height: 32vh;\n\
\x20 overflow: auto;\n\
}\n\
\n\
#state details {\n\
\x20 margin-bottom: 10px;\n\
}\n\
\n\
#state summary {\n\
\x20 cursor: pointer;\n\
\x20 font-weight: 600;\n\
}\n\
";
