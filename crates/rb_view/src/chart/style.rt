//! The style of a picture: the text of assets/style.svg, to which tests/page holds it.

/// Its styles, light and dark, and the tips of its arrows.
#[rattlefmt::skip]
pub const STYLE: &[u8] = b"\
<style>\n\
svg { --background: #fff; --ink: #1b1f24; --faint: #5d6672; --rule: #dfe3e8; --bad: #c0261c; --good: #1a7f43; --leader: #218a4b;\n\
\x20 --candidate: #d08a12; --precandidate: #b39a2e; --follower: #a3abb6; --vote: #a85a06; --append: #2461d8; --heartbeat: #69727e;\n\
\x20 --snapshot: #8237bd; --proposal: #0a7a75; font: 11.5px system-ui, \"Segoe UI\", \"DejaVu Sans\", Arial, sans-serif; }\n\
@media (prefers-color-scheme: dark) { svg { --background: #14171c; --ink: #e4e7eb; --faint: #98a2af; --rule: #2e343d; --bad: #ff8278;\n\
\x20 --good: #63cf8b; --leader: #3fae6b; --candidate: #d99a2b; --precandidate: #b8a244; --follower: #656e7a; --vote: #e0a050;\n\
\x20 --append: #7ba7ff; --heartbeat: #98a2af; --snapshot: #c58df0; --proposal: #4fc4bd; } }\n\
.background { fill: var(--background); }\n\
.edge { fill: var(--rule); }\n\
text { fill: var(--ink); paint-order: stroke; stroke: var(--background); stroke-width: 4px; stroke-linejoin: round; }\n\
.name { font-weight: 600; text-anchor: middle; }\n\
.line { fill: var(--faint); text-anchor: end; }\n\
.end { text-anchor: end; }\n\
.head { font: 600 11px ui-monospace, \"DejaVu Sans Mono\", Menlo, Consolas, monospace; }\n\
.quiet { fill: var(--faint); }\n\
.bad { fill: var(--bad); }\n\
.won, .moved { fill: var(--good); font-weight: 600; }\n\
.turn { font-weight: 600; }\n\
.change, .installed { fill: var(--snapshot); font-weight: 600; }\n\
.leader { fill: var(--leader); }\n\
.candidate { fill: var(--candidate); }\n\
.precandidate { fill: var(--precandidate); }\n\
.follower { fill: var(--follower); }\n\
.append { color: var(--append); } text.append { fill: var(--append); } .append.delivered { marker-end: url(#append); }\n\
.heartbeat { color: var(--heartbeat); } text.heartbeat { fill: var(--heartbeat); } .heartbeat.delivered { marker-end: url(#heartbeat); }\n\
.proposal { color: var(--proposal); } text.proposal { fill: var(--proposal); } .proposal.delivered { marker-end: url(#proposal); }\n\
.snapshot { color: var(--snapshot); } text.snapshot { fill: var(--snapshot); } .snapshot.delivered { marker-end: url(#snapshot); }\n\
.vote { color: var(--vote); } text.vote { fill: var(--vote); } .vote.delivered { marker-end: url(#vote); }\n\
.arrow { fill: none; stroke: currentColor; stroke-width: 1.4; }\n\
.tip { fill: currentColor; }\n\
.waiting { stroke-dasharray: 2 3; }\n\
.cross { fill: none; stroke: var(--bad); stroke-width: 2; }\n\
</style>\n\
<defs>\n\
<marker id=\"append\" viewBox=\"0 0 9 8\" refX=\"9\" refY=\"4\" markerWidth=\"9\" markerHeight=\"8\" markerUnits=\"userSpaceOnUse\" orient=\"auto\"><path class=\"append tip\" d=\"M0 0L9 4L0 8Z\"/></marker>\n\
<marker id=\"heartbeat\" viewBox=\"0 0 9 8\" refX=\"9\" refY=\"4\" markerWidth=\"9\" markerHeight=\"8\" markerUnits=\"userSpaceOnUse\" orient=\"auto\"><path class=\"heartbeat tip\" d=\"M0 0L9 4L0 8Z\"/></marker>\n\
<marker id=\"proposal\" viewBox=\"0 0 9 8\" refX=\"9\" refY=\"4\" markerWidth=\"9\" markerHeight=\"8\" markerUnits=\"userSpaceOnUse\" orient=\"auto\"><path class=\"proposal tip\" d=\"M0 0L9 4L0 8Z\"/></marker>\n\
<marker id=\"snapshot\" viewBox=\"0 0 9 8\" refX=\"9\" refY=\"4\" markerWidth=\"9\" markerHeight=\"8\" markerUnits=\"userSpaceOnUse\" orient=\"auto\"><path class=\"snapshot tip\" d=\"M0 0L9 4L0 8Z\"/></marker>\n\
<marker id=\"vote\" viewBox=\"0 0 9 8\" refX=\"9\" refY=\"4\" markerWidth=\"9\" markerHeight=\"8\" markerUnits=\"userSpaceOnUse\" orient=\"auto\"><path class=\"vote tip\" d=\"M0 0L9 4L0 8Z\"/></marker>\n\
</defs>\n\
";
