//! Code of a page. Sizes of the picture that several of its parts use, in pixels. Made of assets/sizes.js by `tests/page/assemble.py sources`.

/// The code.
#[rattlefmt::skip]
pub(crate) const SIZES: &[u8] = b"\
\n\
// Sizes of the picture that several of its parts use, in pixels.\n\
\n\
const SLOT = 19;\n\
// Where the words of a directive begin, after the line's number; and how far the first column is from the edge at least.\n\
const HEAD_LEFT = 50;\n\
const NARROW_HEAD_LEFT = 34;\n\
const LEAST_LEFT = 168;\n\
const HALF_BAND = 5;\n\
// From the middle of a band to its texts, and how much of the gap stays free after a text.\n\
const BESIDE = HALF_BAND + 5;\n\
const FREE = 10;\n\
// What an arrow needs from the end of its label to the next band.\n\
const ARROW = 22;\n\
// How far the lines of a mark are apart.\n\
const LINE_STEP = 14;\n\
";
