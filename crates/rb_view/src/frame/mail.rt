//! Code of a page. Messages on their way. Made of assets/mail.js by `tests/page/assemble.py sources`.

/// The code.
#[rattlefmt::skip]
pub(crate) const MAIL: &[u8] = b"\
\n\
// Messages on their way.\n\
\n\
\n\
class Mail {\n\
\x20 constructor() {\n\
\x20   this.queues = new Map();\n\
\x20 }\n\
\n\
\x20 queue({ to, type }) {\n\
\x20   const key = to + \" \" + type;\n\
\x20   let queue = this.queues.get(key);\n\
\x20   if (!queue) {\n\
\x20     queue = { first: 0, messages: [] };\n\
\x20     this.queues.set(key, queue);\n\
\x20   }\n\
\x20   return queue;\n\
\x20 }\n\
\n\
\x20 push(message) {\n\
\x20   this.queue(message).messages.push(message);\n\
\x20 }\n\
\n\
\x20 take({ to, type, from, term, said }) {\n\
\x20   const queue = this.queue({ to, type });\n\
\x20   let at = queue.first;\n\
\x20   while (at < queue.messages.length - 1 && !isSame(queue.messages[at], from, term, said)) {\n\
\x20     at += 1;\n\
\x20   }\n\
\x20   const message = queue.messages[at];\n\
\x20   queue.messages.copyWithin(queue.first + 1, queue.first, at);\n\
\x20   queue.first += 1;\n\
\x20   return message;\n\
\x20 }\n\
\n\
\x20 takeBack(key) {\n\
\x20   return (this.queue(key).messages.pop());\n\
\x20 }\n\
}\n\
\n\
function isSame(message, from, term, said) {\n\
\x20 return message.from === from && message.term === term && message.said.every((cell, at) => cell === said[at]);\n\
}\n\
\n\
const STEPS_A_BLOCK = 32;\n\
\n\
class Spans {\n\
\x20 constructor(messages) {\n\
\x20   this.blocks = [];\n\
\x20   this.waiting = messages.filter((message) => message.met === null);\n\
\x20   for (const message of messages) {\n\
\x20     const last = this.block((message.met || message.sent).place);\n\
\x20     for (let block = this.block(message.sent.place); block <= last; block += 1) {\n\
\x20       (this.blocks[block] ||= []).push(message);\n\
\x20     }\n\
\x20   }\n\
\x20 }\n\
\n\
\x20 block(place) {\n\
\x20   return Math.floor(place / STEPS_A_BLOCK);\n\
\x20 }\n\
\n\
\x20 between(first, last) {\n\
\x20   return new Set(this.blocks.slice(this.block(first), this.block(last) + 1).flat());\n\
\x20 }\n\
\n\
\x20 pendingAfter(place, serial) {\n\
\x20   const near = this.blocks[this.block(place)] || [];\n\
\x20   const met = near.filter((message) => message.met !== null && message.sentAt <= serial && message.metAt > serial);\n\
\x20   const waiting = this.waiting.filter((message) => message.sentAt <= serial);\n\
\x20   return [...met, ...waiting].sort((one, other) => one.number - other.number);\n\
\x20 }\n\
}\n\
";
