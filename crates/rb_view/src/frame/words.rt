//! Code of a page. What is written at arrows and bands, in few words; and in full. Made of assets/words.js by `tests/page/assemble.py sources`.

/// The code.
#[rattlefmt::skip]
pub(crate) const WORDS: &[u8] = b"\
\n\
// What is written at arrows and bands, in few words; and in full.\n\
\n\
\n\
\n\
const KINDS = {\n\
\x20 MsgVote: \"vote\",\n\
\x20 MsgPreVote: \"vote\",\n\
\x20 MsgVoteResp: \"vote\",\n\
\x20 MsgPreVoteResp: \"vote\",\n\
\x20 MsgTimeoutNow: \"vote\",\n\
\x20 MsgApp: \"append\",\n\
\x20 MsgAppResp: \"append\",\n\
\x20 MsgHeartbeat: \"heartbeat\",\n\
\x20 MsgHeartbeatResp: \"heartbeat\",\n\
\x20 MsgSnap: \"snapshot\",\n\
\x20 MsgProp: \"proposal\",\n\
\x20 MsgTransferLeader: \"proposal\",\n\
};\n\
\n\
const SAID = {\n\
\x20 MsgVote: ([term, index, transfer]) => `last ${term}/${index}${transfer ? \" transfer\" : \"\"}`,\n\
\x20 MsgPreVote: ([term, index]) => `last ${term}/${index}`,\n\
\x20 MsgVoteResp: ([granted]) => (granted ? \"granted\" : \"refused\"),\n\
\x20 MsgPreVoteResp: ([granted]) => (granted ? \"granted\" : \"refused\"),\n\
\x20 MsgApp: ([term, index, commit, count]) => `after ${term}/${index}, commit ${commit}, ${counted(count, \"entry\", \"entries\")}`,\n\
\x20 MsgAppResp: ([refused, index, hint]) => (refused ? `refused ${index}, hint ${hint}` : `match ${index}`),\n\
\x20 MsgHeartbeat: ([commit]) => `commit ${commit}`,\n\
\x20 MsgHeartbeatResp: () => \"\",\n\
\x20 MsgSnap: ([term, index]) => `${term}/${index}`,\n\
\x20 MsgProp: ([body]) => shownBody(body),\n\
\x20 MsgTransferLeader: ([target]) => `to ${target}`,\n\
\x20 MsgTimeoutNow: () => \"\",\n\
};\n\
\n\
// The same in fewer and fewer words. A commit is \xe2\x9c\x93, as it is at marks.\n\
const IN_FEWER = {\n\
\x20 MsgVote: ([term, index, transfer]) => (transfer ? [`${term}/${index} transfer`, \"transfer\"] : [`${term}/${index}`]),\n\
\x20 MsgPreVote: ([term, index]) => [`${term}/${index}`],\n\
\x20 MsgVoteResp: ([granted]) => [granted ? \"yes\" : \"no\"],\n\
\x20 MsgPreVoteResp: ([granted]) => [granted ? \"yes\" : \"no\"],\n\
\x20 MsgApp: ([term, index, commit, count]) => (count ? [`+${count} after ${term}/${index}`, `${term}/${index} +${count}`] : [`commit ${commit}`, `\xe2\x9c\x93${commit}`]),\n\
\x20 MsgAppResp: ([refused, index, hint]) => (refused ? [`\xe2\x9c\x97${index} hint ${hint}`, `\xe2\x9c\x97${index}`] : [`${index}`]),\n\
\x20 MsgHeartbeat: ([commit]) => [`\xe2\x9c\x93${commit}`],\n\
};\n\
\n\
function labelsOf(message) {\n\
\x20 const { type, term, metTerm } = message;\n\
\x20 const isAimless = message.fate === \"waiting\" || message.fate === \"given up\" || metTerm === undefined;\n\
\x20 const aim = isAimless ? `\xe2\x86\x92${message.to} ` : \"\";\n\
\x20 const start = aim + type.slice(3);\n\
\x20 const isOther = term && metTerm !== undefined && metTerm !== term;\n\
\x20 const startWithTerm = isOther ? `${start} t${term}` : start;\n\
\x20 const said = [SAID[type](message.said), ...(IN_FEWER[type]?.(message.said) ?? [])];\n\
\x20 const labels = said.map((text) => `${startWithTerm} ${text}`.trim());\n\
\x20 // The answer to a question before the vote has the question's term. A heartbeat of another term says little by its commit.\n\
\x20 const least = { MsgPreVoteResp: `${start} ${said[1]}`, MsgHeartbeat: startWithTerm };\n\
\x20 return isOther && least[type] ? [...labels, least[type]] : labels;\n\
}\n\
\n\
function messageText(message) {\n\
\x20 const term = message.term ? ` term ${message.term}` : \"\";\n\
\x20 return `${message.from}\xe2\x86\x92${message.to} ${message.type}${term} ${SAID[message.type](message.said)}`.trim();\n\
}\n\
\n\
const IN_SENTENCES = {\n\
\x20 MsgApp: ([term, index, commit, count]) => (count ? `+${count} after ${term}/${index}` : `commit ${commit}`),\n\
\x20 MsgAppResp: ([refused, index, hint]) => (refused ? `refused ${index}, hint ${hint}` : `match ${index}`),\n\
};\n\
\n\
function messageWords({ type, term, said }) {\n\
\x20 const words = (IN_SENTENCES[type] ?? SAID[type])(said);\n\
\x20 return [type.slice(3), term ? `t${term}` : \"\", words].filter(Boolean).join(\" \");\n\
}\n\
\n\
const LOST = { dropped: \"dropped\", \"given up\": \"given up: no room\", waiting: \"on its way\" };\n\
\n\
function fateText(message) {\n\
\x20 return message.fate === \"delivered\" ? `delivered at line ${message.met?.line}` : LOST[message.fate];\n\
}\n\
\n\
// What a node reports: a sentence, and the look of its mark.\n\
const MARKS = {\n\
\x20 started: () => [\"started\", \"quiet\"],\n\
\x20 restarted: ([, term]) => [`\xe2\x86\xbb restarted, t${term}`, \"turn\"],\n\
\x20 became: ([, role, term]) => (role === \"leader\" ? [`\xe2\x98\x85 leader, t${term}`, \"won\"] : [`${role}, t${term}`, \"turn\"]),\n\
\x20 \"cannot-campaign\": ([, why]) => [`! can't campaign: ${why}`, \"bad\"],\n\
\x20 vote: ([id, , granted, from, result]) => [`${from === id ? \"own vote\" : granted ? `vote of ${from}` : `no vote of ${from}`}: ${result}`, \"quiet\"],\n\
\x20 ignored: ([, type]) => [`ignores ${type.slice(3)}`, \"quiet\"],\n\
\x20 \"dropped-proposal\": () => [\"! proposal dropped\", \"bad\"],\n\
\x20 conflict: ([, index, commit]) => [`! conflict at ${index}, commit ${commit}`, \"bad\"],\n\
\x20 \"appends-nothing\": () => [\"! appends nothing: index limit\", \"bad\"],\n\
\x20 \"replaced-change\": ([, index, why]) => [`! change ${index} made empty: ${why}`, \"bad\"],\n\
\x20 switched: ([, config]) => [`\xe2\x97\x86 ${config}`, \"change\"],\n\
\x20 \"refused-change\": ([, index, fault]) => [`! change ${index} refused: ${fault}`, \"bad\"],\n\
\x20 restored: ([, term, index]) => [`\xe2\x96\xa3 snapshot ${term}/${index}`, \"installed\"],\n\
\x20 \"transfer-starts\": ([, to]) => [`hands over to ${to}`, \"change\"],\n\
\x20 \"transfer-ends\": ([, to]) => [`hand-over to ${to} ends`, \"quiet\"],\n\
\x20 \"lost-quorum\": () => [\"! lost its quorum\", \"bad\"],\n\
\x20 \"nothing-ready\": () => [\"nothing ready\", \"quiet\"],\n\
\x20 committed: ([, index]) => [`\xe2\x9c\x93 commit ${index}`, \"moved\"],\n\
\x20 saved: ([, first, last]) => [`saves ${first === last ? first : `${first}\xe2\x80\x93${last}`}`, \"quiet\"],\n\
\x20 appended: ([, index, body]) => [`+ ${index} ${shownBody(body)}`, \"quiet\"],\n\
\x20 replaced: ([, index]) => [`\xe2\x86\xba ${index}+ replaced`, \"change\"],\n\
\x20 lost: ([, first, last]) => [`\xe2\x9c\x97 ${first === last ? first : `${first}\xe2\x80\x93${last}`} lost`, \"bad\"],\n\
\x20 compacted: ([, index]) => [`\xe2\x96\xa3 compacted to ${index}`, \"installed\"],\n\
};\n\
\n\
// What is said of a whole directive.\n\
const NOTES = {\n\
\x20 \"no-messages\": () => [\"no messages\", \"note\"],\n\
\x20 stopped: ([rounds]) => [`stopped after ${rounds} rounds`, \"note\"],\n\
\x20 error: ([text]) => [`error: ${shownBody(text)}`, \"bad\"],\n\
};\n\
\n\
function eventText({ name, id, cells, message }) {\n\
\x20 if (message) {\n\
\x20   const verb = name === \"no-room\" ? \"no room for\" : name;\n\
\x20   return `${verb} ${messageText(message)}`;\n\
\x20 }\n\
\x20 if (MARKS[name]) {\n\
\x20   return `${id} ${MARKS[name](cells)[0]}`;\n\
\x20 }\n\
\x20 if (NOTES[name]) {\n\
\x20   return NOTES[name](cells)[0];\n\
\x20 }\n\
\x20 const entry = name === \"save\" || name === \"apply\" ? `${cells[1]}/${cells[0]} ${shownBody(cells[2])}` : \"\";\n\
\x20 const hard = name === \"hard\" ? `term ${cells[0]}, vote ${cells[1]}, commit ${cells[2]}` : \"\";\n\
\x20 const snapshot = name === \"snapshot\" ? `${cells[0]}/${cells[1]}` : \"\";\n\
\x20 return `${id} ${name} ${entry}${hard}${snapshot}`.trim();\n\
}\n\
\n\
function hasRestarted({ events }, id) {\n\
\x20 return events.some((event) => event.name === \"restarted\" && event.id === id);\n\
}\n\
\n\
function subjectOf({ name, id, cells, message }) {\n\
\x20 if (message) {\n\
\x20   return { nodes: [message.from, message.to], type: message.type, term: message.term };\n\
\x20 }\n\
\x20 const type = name === \"vote\" || name === \"ignored\" ? cells[1] : \"\";\n\
\x20 const term = { became: cells[2], restarted: cells[1], hard: cells[0], save: cells[1], apply: cells[1], snapshot: cells[0], restored: cells[1] }[name] ?? 0;\n\
\x20 return { nodes: id ? [id] : [], type, term };\n\
}\n\
";
