//! Code of a page. The script itself, cut into the parts of its directives. Made of assets/source.js by `tests/page/assemble.py sources`.

/// The code.
#[rattlefmt::skip]
pub(crate) const SOURCE: &[u8] = b"\
\n\
// The script itself, cut into the parts of its directives. docs/SCRIPTS.md has the rules; this script is known to keep them.\n\
\n\
\n\
class Source {\n\
\x20 constructor(text) {\n\
\x20   this.lines = text.split(\"\\n\").map((line) => line.replace(/\\r+$/, \"\"));\n\
\x20   if (this.lines[this.lines.length - 1] === \"\") {\n\
\x20     this.lines.pop();\n\
\x20   }\n\
\x20   // How many lines were read.\n\
\x20   this.next = 0;\n\
\x20 }\n\
\n\
\x20 block(line) {\n\
\x20   const first = this.next + 1;\n\
\x20   const lead = this.lines.slice(this.next, line - 1);\n\
\x20   let at = line;\n\
\x20   while (/\\\\[ \\t]*$/.test(this.lines[at - 1]) && at < this.lines.length) {\n\
\x20     at += 1;\n\
\x20   }\n\
\x20   const head = this.lines.slice(line - 1, at);\n\
\x20   const from = at;\n\
\x20   while (at < this.lines.length && !/^[ \\t]*----[ \\t]*$/.test(this.lines[at])) {\n\
\x20     at += 1;\n\
\x20   }\n\
\x20   this.next = this.afterExpectation(at + 1);\n\
\x20   return { first, lead: lead.map(shown), head: head.map(shown), input: this.lines.slice(from, at).map(shown) };\n\
\x20 }\n\
\n\
\x20 afterExpectation(start) {\n\
\x20   const isRule = (at) => this.lines[at] === \"----\";\n\
\x20   const isBlank = (at) => /^[ \\t]*$/.test(this.lines[at]);\n\
\x20   let at = start;\n\
\x20   if (isRule(at)) {\n\
\x20     at += 1;\n\
\x20     while (at < this.lines.length && !(isRule(at) && isRule(at + 1))) {\n\
\x20       at += 1;\n\
\x20     }\n\
\x20     at += 2;\n\
\x20   } else {\n\
\x20     while (at < this.lines.length && !isBlank(at)) {\n\
\x20       at += 1;\n\
\x20     }\n\
\x20   }\n\
\x20   return at < this.lines.length && isBlank(at) ? at + 1 : at;\n\
\x20 }\n\
\n\
\x20 rest() {\n\
\x20   return this.lines.slice(this.next).map(shown);\n\
\x20 }\n\
}\n\
";
