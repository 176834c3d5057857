//! Code of a page. Values that change over time. Made of assets/history.js by `tests/page/assemble.py sources`.

/// The code.
#[rattlefmt::skip]
pub(crate) const HISTORY: &[u8] = b"\
\n\
// Values that change over time.\n\
\n\
function firstAbove(numbers, number) {\n\
\x20 let low = 0;\n\
\x20 let high = numbers.length;\n\
\x20 while (low < high) {\n\
\x20   const middle = (low + high) >> 1;\n\
\x20   if (numbers[middle] <= number) {\n\
\x20     low = middle + 1;\n\
\x20   } else {\n\
\x20     high = middle;\n\
\x20   }\n\
\x20 }\n\
\x20 return low;\n\
}\n\
\n\
class History {\n\
\x20 constructor() {\n\
\x20   this.moments = [];\n\
\x20   this.values = [];\n\
\x20 }\n\
\n\
\x20 set(moment, value) {\n\
\x20   const last = this.moments.length - 1;\n\
\x20   if (this.moments[last] === moment) {\n\
\x20     this.values[last] = value;\n\
\x20   } else {\n\
\x20     this.moments.push(moment);\n\
\x20     this.values.push(value);\n\
\x20   }\n\
\x20 }\n\
\n\
\x20 at(moment) {\n\
\x20   const past = firstAbove(this.moments, moment);\n\
\x20   return past ? this.values[past - 1] : undefined;\n\
\x20 }\n\
\n\
\x20 changedWithin(after, until) {\n\
\x20   const past = firstAbove(this.moments, until);\n\
\x20   return past > 0 && this.moments[past - 1] > after;\n\
\x20 }\n\
\n\
\x20 last() {\n\
\x20   return this.values[this.values.length - 1];\n\
\x20 }\n\
}\n\
";
