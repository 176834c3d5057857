//! The colours of a page, its header and what all of its parts share. Made of assets/style.css by `tests/page/assemble.py sources`.

/// The style.
#[rattlefmt::skip]
pub(crate) const STYLE: &[u8] = b"\
\n\
:root {\n\
\x20 color-scheme: light;\n\
\x20 --background: #ffffff;\n\
\x20 --panel: #f7f8fa;\n\
\x20 --ink: #1b1f24;\n\
\x20 --faint: #5d6672;\n\
\x20 --rule: #dfe3e8;\n\
\x20 --chosen: #e9f0fe;\n\
\x20 --accent: #2461d8;\n\
\x20 --bad: #c0261c;\n\
\x20 --bad-background: #fdeeec;\n\
\x20 --good: #177340;\n\
\x20 --good-background: #e8f6ed;\n\
\x20 --leader: #17763d;\n\
\x20 --candidate: #b8710a;\n\
\x20 --precandidate: #938321;\n\
\x20 --follower: #7d8693;\n\
\x20 --on-follower: #14171c;\n\
\x20 --on-candidate: #14171c;\n\
\x20 --vote: #9b5205;\n\
\x20 --append: #2461d8;\n\
\x20 --heartbeat: #5d6672;\n\
\x20 --snapshot: #8237bd;\n\
\x20 --proposal: #0a7a75;\n\
\x20 --now: #ffe8a3;\n\
\x20 --found: #ffe08a;\n\
\x20 --differs: #00000022;\n\
\x20 --t0: #dbe7fb;\n\
\x20 --t1: #fde3c8;\n\
\x20 --t2: #d8f0dc;\n\
\x20 --t3: #ecdcf7;\n\
\x20 --t4: #fbd9dc;\n\
\x20 --t5: #d3eff0;\n\
\x20 --t6: #f2edc4;\n\
\x20 --t7: #e2e4e8;\n\
\x20 --mono: ui-monospace, \"SF Mono\", \"Cascadia Mono\", \"Segoe UI Mono\", \"DejaVu Sans Mono\", Menlo, Consolas, monospace;\n\
\x20 --sans: system-ui, -apple-system, \"Segoe UI\", Roboto, \"Helvetica Neue\", \"DejaVu Sans\", Arial, sans-serif;\n\
}\n\
\n\
@media screen and (prefers-color-scheme: dark) {\n\
\x20 :root {\n\
\x20   color-scheme: dark;\n\
\x20   --background: #14171c;\n\
\x20   --panel: #1b1f26;\n\
\x20   --ink: #e4e7eb;\n\
\x20   --faint: #98a2af;\n\
\x20   --rule: #2e343d;\n\
\x20   --chosen: #1d2b47;\n\
\x20   --accent: #7ba7ff;\n\
\x20   --bad: #ff8278;\n\
\x20   --bad-background: #3a1f1e;\n\
\x20   --good: #63cf8b;\n\
\x20   --good-background: #17301f;\n\
\x20   --leader: #3fae6b;\n\
\x20   --candidate: #d99a2b;\n\
\x20   --precandidate: #b8a244;\n\
\x20   --follower: #7c8693;\n\
\x20   --vote: #e0a050;\n\
\x20   --append: #7ba7ff;\n\
\x20   --heartbeat: #98a2af;\n\
\x20   --snapshot: #c58df0;\n\
\x20   --proposal: #4fc4bd;\n\
\x20   --now: #5a4a12;\n\
\x20   --found: #6b5714;\n\
\x20   --differs: #ffffff2e;\n\
\x20   --t0: #243a5e;\n\
\x20   --t1: #553a1c;\n\
\x20   --t2: #1f4a2b;\n\
\x20   --t3: #43295a;\n\
\x20   --t4: #5a2529;\n\
\x20   --t5: #17474a;\n\
\x20   --t6: #4a4518;\n\
\x20   --t7: #3a3f48;\n\
\x20 }\n\
}\n\
\n\
* {\n\
\x20 box-sizing: border-box;\n\
}\n\
\n\
html,\n\
body {\n\
\x20 height: 100%;\n\
\x20 margin: 0;\n\
}\n\
\n\
body {\n\
\x20 display: flex;\n\
\x20 flex-direction: column;\n\
\x20 background: var(--background);\n\
\x20 color: var(--ink);\n\
\x20 font: 13px/1.45 var(--sans);\n\
}\n\
\n\
#top {\n\
\x20 display: flex;\n\
\x20 flex-wrap: wrap;\n\
\x20 align-items: baseline;\n\
\x20 gap: 2px 12px;\n\
\x20 padding: 7px 12px;\n\
\x20 border-bottom: 1px solid var(--rule);\n\
}\n\
\n\
#top h1 {\n\
\x20 margin: 0;\n\
\x20 font-size: 15px;\n\
\x20 overflow-wrap: anywhere;\n\
}\n\
\n\
#top p {\n\
\x20 margin: 0;\n\
\x20 color: var(--faint);\n\
}\n\
\n\
#counts.bad {\n\
\x20 color: var(--bad);\n\
\x20 font-weight: 600;\n\
}\n\
\n\
#where {\n\
\x20 font-variant-numeric: tabular-nums;\n\
}\n\
\n\
.unseen {\n\
\x20 position: absolute;\n\
\x20 width: 1px;\n\
\x20 height: 1px;\n\
\x20 overflow: hidden;\n\
\x20 clip-path: inset(50%);\n\
\x20 white-space: nowrap;\n\
}\n\
\n\
#keys,\n\
#search {\n\
\x20 display: flex;\n\
\x20 flex-wrap: wrap;\n\
\x20 align-items: center;\n\
\x20 gap: 4px;\n\
}\n\
\n\
#keys[hidden],\n\
#search[hidden],\n\
#print {\n\
\x20 display: none;\n\
}\n\
\n\
#keys {\n\
\x20 margin-left: auto;\n\
}\n\
\n\
button,\n\
select,\n\
input {\n\
\x20 height: 24px;\n\
\x20 padding: 0 4px;\n\
\x20 border: 1px solid var(--rule);\n\
\x20 border-radius: 4px;\n\
\x20 background: var(--panel);\n\
\x20 color: var(--ink);\n\
\x20 font: 12px/20px var(--sans);\n\
}\n\
\n\
button {\n\
\x20 cursor: pointer;\n\
}\n\
\n\
button:hover {\n\
\x20 border-color: var(--accent);\n\
}\n\
\n\
#play {\n\
\x20 min-width: 58px;\n\
}\n\
\n\
select {\n\
\x20 max-width: 92px;\n\
}\n\
\n\
#find {\n\
\x20 width: 92px;\n\
}\n\
\n\
#found {\n\
\x20 color: var(--bad);\n\
}\n\
\n\
dialog {\n\
\x20 padding: 14px 20px;\n\
\x20 border: 1px solid var(--rule);\n\
\x20 border-radius: 8px;\n\
\x20 background: var(--background);\n\
\x20 color: var(--ink);\n\
}\n\
\n\
dialog::backdrop {\n\
\x20 background: #0006;\n\
}\n\
\n\
dialog h2 {\n\
\x20 margin: 0 0 8px;\n\
\x20 font-size: 14px;\n\
}\n\
\n\
dialog th {\n\
\x20 padding: 2px 16px 2px 0;\n\
\x20 text-align: left;\n\
\x20 white-space: nowrap;\n\
}\n\
\n\
dialog button {\n\
\x20 margin-top: 10px;\n\
}\n\
\n\
mark {\n\
\x20 background: var(--found);\n\
\x20 color: inherit;\n\
}\n\
\n\
mark.differs {\n\
\x20 background: var(--differs);\n\
}\n\
\n\
kbd {\n\
\x20 display: inline-block;\n\
\x20 min-width: 14px;\n\
\x20 padding: 0 4px;\n\
\x20 border: 1px solid var(--rule);\n\
\x20 border-bottom-width: 2px;\n\
\x20 border-radius: 4px;\n\
\x20 background: var(--panel);\n\
\x20 font: 11px/16px var(--sans);\n\
\x20 text-align: center;\n\
}\n\
\n\
#notice {\n\
\x20 margin: 24px 16px;\n\
}\n\
\n\
#panes {\n\
\x20 display: grid;\n\
\x20 flex: 1;\n\
\x20 grid-template-columns: minmax(250px, 23%) minmax(0, 1fr) minmax(270px, 20%);\n\
\x20 min-height: 0;\n\
}\n\
\n\
#panes[hidden],\n\
#notice[hidden] {\n\
\x20 display: none;\n\
}\n\
\n\
#panes > section {\n\
\x20 min-height: 0;\n\
\x20 min-width: 0;\n\
}\n\
\n\
section:focus-visible,\n\
#script:focus-within,\n\
#logs:focus-visible,\n\
#scroll:focus-visible {\n\
\x20 outline: 2px solid var(--accent);\n\
\x20 outline-offset: -2px;\n\
}\n\
";
