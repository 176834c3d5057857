//! The style of the logs of a page, side by side. Made of assets/logs_style.css by `tests/page/assemble.py sources`.

/// The style.
#[rattlefmt::skip]
pub(crate) const LOGS_STYLE: &[u8] = b"\
\n\
/* The logs: a row a node, a column an index. */\n\
\n\
#logs {\n\
\x20 position: relative;\n\
\x20 display: flex;\n\
\x20 flex: 0 0 auto;\n\
\x20 align-items: flex-start;\n\
\x20 max-height: 38%;\n\
\x20 overflow: auto;\n\
\x20 padding: 0 12px;\n\
\x20 background: var(--background);\n\
}\n\
\n\
#logs table {\n\
\x20 border-collapse: separate;\n\
\x20 border-spacing: 2px 1px;\n\
\x20 font: 11px/16px var(--mono);\n\
}\n\
\n\
#logs th {\n\
\x20 color: var(--faint);\n\
\x20 font-weight: 400;\n\
}\n\
\n\
#logs th[scope=\"row\"] {\n\
\x20 position: sticky;\n\
\x20 left: -12px;\n\
\x20 z-index: 1;\n\
\x20 min-width: 128px;\n\
\x20 padding: 0 6px 0 12px;\n\
\x20 background: var(--background);\n\
\x20 color: var(--ink);\n\
\x20 font: 12px/18px var(--sans);\n\
\x20 text-align: left;\n\
\x20 white-space: nowrap;\n\
}\n\
\n\
#logs td {\n\
\x20 min-width: 27px;\n\
\x20 height: 20px;\n\
\x20 padding: 0 2px;\n\
\x20 text-align: center;\n\
\x20 white-space: nowrap;\n\
}\n\
\n\
#logs .indexes th[scope=\"col\"] {\n\
\x20 min-width: 27px;\n\
\x20 font-size: 10px;\n\
}\n\
\n\
.sample,\n\
#logs td.t0,\n\
#logs td.t1,\n\
#logs td.t2,\n\
#logs td.t3,\n\
#logs td.t4,\n\
#logs td.t5,\n\
#logs td.t6,\n\
#logs td.t7 {\n\
\x20 border: 1px solid var(--faint);\n\
\x20 border-radius: 3px;\n\
}\n\
\n\
.t0 { background: var(--t0); }\n\
.t1 { background: var(--t1); }\n\
.t2 { background: var(--t2); }\n\
.t3 { background: var(--t3); }\n\
.t4 { background: var(--t4); }\n\
.t5 { background: var(--t5); }\n\
.t6 { background: var(--t6); }\n\
.t7 { background: var(--t7); }\n\
\n\
#logs td.base,\n\
.sample.base {\n\
\x20 border-style: double;\n\
\x20 border-width: 3px;\n\
}\n\
\n\
#logs td.unsaved,\n\
.sample.unsaved {\n\
\x20 border-style: dashed;\n\
}\n\
\n\
#logs td.applied,\n\
.sample.applied {\n\
\x20 border-left-width: 4px;\n\
}\n\
\n\
#logs td.edge,\n\
.sample.edge {\n\
\x20 border-right: 5px solid var(--good);\n\
}\n\
\n\
#logs td.new {\n\
\x20 box-shadow: 0 0 0 2px var(--accent);\n\
}\n\
\n\
#logs del,\n\
#log-signs del {\n\
\x20 padding: 0 3px;\n\
\x20 border-radius: 2px;\n\
\x20 color: var(--bad);\n\
\x20 text-decoration: line-through 2px;\n\
}\n\
\n\
#logs i {\n\
\x20 display: none;\n\
\x20 margin-left: 3px;\n\
\x20 font-style: normal;\n\
}\n\
\n\
#logs .bodies i {\n\
\x20 display: inline;\n\
}\n\
\n\
#logs .whole {\n\
\x20 position: absolute;\n\
\x20 width: 1px;\n\
\x20 height: 1px;\n\
\x20 overflow: hidden;\n\
\x20 clip-path: inset(50%);\n\
}\n\
\n\
#logs .marks td {\n\
\x20 height: 12px;\n\
\x20 color: var(--accent);\n\
\x20 font-size: 10px;\n\
\x20 line-height: 12px;\n\
}\n\
\n\
#logs .marks td:first-child {\n\
\x20 color: var(--faint);\n\
\x20 text-align: right;\n\
}\n\
\n\
#logs .role {\n\
\x20 padding: 0 6px;\n\
}\n\
\n\
#logs .more {\n\
\x20 margin: 2px 4px 0 0;\n\
\x20 white-space: nowrap;\n\
}\n\
\n\
#log-detail {\n\
\x20 min-height: 17px;\n\
\x20 margin: 0;\n\
\x20 padding: 0 12px 2px;\n\
\x20 overflow: hidden;\n\
\x20 color: var(--faint);\n\
\x20 font: 11px/16px var(--mono);\n\
\x20 text-overflow: ellipsis;\n\
\x20 white-space: nowrap;\n\
}\n\
\n\
.drawing text {\n\
\x20 font: 11px var(--sans);\n\
\x20 fill: var(--ink);\n\
\x20 stroke: var(--background);\n\
\x20 stroke-width: 3px;\n\
\x20 stroke-linejoin: round;\n\
\x20 paint-order: stroke;\n\
}\n\
\n\
.drawing text.chosen {\n\
\x20 stroke: var(--chosen);\n\
}\n\
\n\
.drawing .row.chosen {\n\
\x20 fill: var(--chosen);\n\
}\n\
\n\
.drawing .edge {\n\
\x20 stroke: var(--rule);\n\
}\n\
\n\
.drawing .place {\n\
\x20 font: 11px var(--mono);\n\
\x20 fill: var(--faint);\n\
}\n\
\n\
.drawing .head {\n\
\x20 font: 600 11px var(--mono);\n\
}\n\
\n\
.drawing .note {\n\
\x20 fill: var(--faint);\n\
}\n\
\n\
.drawing .bad {\n\
\x20 fill: var(--bad);\n\
}\n\
\n\
\n\
.drawing .mark.quiet {\n\
\x20 fill: var(--faint);\n\
}\n\
\n\
.drawing .mark.won {\n\
\x20 fill: var(--leader);\n\
\x20 font-weight: 700;\n\
}\n\
\n\
.drawing .mark.moved {\n\
\x20 fill: var(--good);\n\
\x20 font-weight: 600;\n\
}\n\
\n\
.drawing .mark.turn {\n\
\x20 font-weight: 600;\n\
}\n\
\n\
.drawing .mark.change,\n\
.drawing .mark.installed {\n\
\x20 fill: var(--snapshot);\n\
\x20 font-weight: 600;\n\
}\n\
\n\
.drawing .mark.bad {\n\
\x20 fill: var(--bad);\n\
\x20 font-weight: 600;\n\
}\n\
\n\
svg .band {\n\
\x20 stroke: none;\n\
}\n\
\n\
svg .band.leader {\n\
\x20 fill: var(--leader);\n\
}\n\
\n\
svg .band.candidate {\n\
\x20 fill: var(--candidate);\n\
}\n\
\n\
svg .band.precandidate {\n\
\x20 fill: var(--precandidate);\n\
}\n\
\n\
svg .band.follower {\n\
\x20 fill: var(--follower);\n\
}\n\
\n\
svg .arrow {\n\
\x20 fill: none;\n\
\x20 stroke-width: 1.5;\n\
\x20 stroke-linejoin: round;\n\
}\n\
\n\
svg .arrow.waiting {\n\
\x20 stroke-dasharray: 2 3;\n\
}\n\
\n\
svg .arrow.here {\n\
\x20 stroke-width: 2.25;\n\
}\n\
\n\
svg .arrow.now {\n\
\x20 stroke-width: 4;\n\
}\n\
\n\
svg .arrow.under-way {\n\
\x20 stroke-dasharray: 7 3;\n\
}\n\
\n\
svg .later {\n\
\x20 opacity: 0.35;\n\
}\n\
\n\
svg .dim {\n\
\x20 opacity: 0.1;\n\
}\n\
\n\
.drawing path.now:not(.arrow):not(.tip):not(.cross) {\n\
\x20 stroke: var(--accent);\n\
\x20 stroke-dasharray: 2 4;\n\
}\n\
\n\
.drawing text.now.now {\n\
\x20 fill: var(--ink);\n\
\x20 stroke: var(--now);\n\
\x20 stroke-width: 6px;\n\
\x20 font-weight: 700;\n\
}\n\
\n\
.drawing text.found {\n\
\x20 stroke: var(--found);\n\
\x20 stroke-width: 6px;\n\
}\n\
\n\
svg .traced .arrow {\n\
\x20 stroke-width: 4;\n\
}\n\
\n\
svg .vote {\n\
\x20 --kind: var(--vote);\n\
}\n\
\n\
svg .append {\n\
\x20 --kind: var(--append);\n\
}\n\
\n\
svg .heartbeat {\n\
\x20 --kind: var(--heartbeat);\n\
}\n\
\n\
svg .snapshot {\n\
\x20 --kind: var(--snapshot);\n\
}\n\
\n\
svg .proposal {\n\
\x20 --kind: var(--proposal);\n\
}\n\
\n\
svg .arrow,\n\
svg .cross {\n\
\x20 stroke: var(--kind);\n\
}\n\
\n\
svg .cross {\n\
\x20 fill: none;\n\
\x20 stroke: var(--bad);\n\
\x20 stroke-width: 2;\n\
}\n\
\n\
svg .tip {\n\
\x20 fill: var(--kind);\n\
}\n\
\n\
.drawing .label {\n\
\x20 fill: var(--kind);\n\
}\n\
";
