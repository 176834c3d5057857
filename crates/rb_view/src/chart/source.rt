//! The notes and the heads of a script.

use memchr::memchr;
use rb_script::{
    continues, is_blank, is_rule, is_separator, is_space, trim_blanks, without_returns,
};

/// The rest of a script's bytes, from the beginning of a line on.
#[derive(Clone, Copy)]
pub(crate) struct ScriptSource<'a> {
    rest: &'a [u8],
    // the number of that line, counted from 1, and its part of a block
    line: u64,
    part: SourcePart,
}

// The parts of a block that lines belong to. (docs/SCRIPTS.md)
#[derive(Clone, Copy)]
enum SourcePart {
    Lead,
    Head,
    Input,
    /// Right below the separator.
    Below,
    Plain,
    /// Between the two pairs of rules.
    Double,
    /// There, right below a rule.
    BelowRule,
}

impl SourcePart {
    // The part of the line after a line, except for the first line of a head.
    fn below(self, line: &[u8]) -> SourcePart {
        match self {
            SourcePart::Lead => SourcePart::Lead,
            SourcePart::Head if continues(line) => SourcePart::Head,
            SourcePart::Input if is_separator(line) => SourcePart::Below,
            SourcePart::Head | SourcePart::Input => SourcePart::Input,
            SourcePart::Below if is_rule(line) => SourcePart::Double,
            SourcePart::Below | SourcePart::Plain if is_blank(line) => SourcePart::Lead,
            SourcePart::Below | SourcePart::Plain => SourcePart::Plain,
            SourcePart::BelowRule if is_rule(line) => SourcePart::Lead,
            SourcePart::Double if is_rule(line) => SourcePart::BelowRule,
            SourcePart::Double | SourcePart::BelowRule => SourcePart::Double,
        }
    }
}

// The first line without its end, and the rest.
fn first_line(bytes: &[u8]) -> (&[u8], &[u8]) {
    match memchr(b'\n', bytes) {
        Some(end) => (&bytes[..end], &bytes[end + 1..]),
        None => (bytes, &[]),
    }
}

// The text of a comment, without its marks and the blanks around it.
fn comment_words(line: &[u8]) -> &[u8] {
    let words = without_marks(without_back(trim_blanks(line)));
    words.strip_prefix(b" ".as_slice()).unwrap_or(words)
}

// The words from the first byte on that isn't `#`.
fn without_marks(words: &[u8]) -> &[u8] {
    for (i, b) in words.iter().enumerate() {
        if *b != b'#' {
            return &words[i..];
        }
    }
    &[]
}

// The line up to its last byte that isn't a blank.
fn without_back(line: &[u8]) -> &[u8] {
    let mut end = 0usize;
    for (i, b) in line.iter().enumerate() {
        if !is_space(*b) {
            end = i.saturating_add(1);
        }
    }
    line.get(..end).unwrap_or(line)
}

impl<'a> ScriptSource<'a> {
    pub(crate) fn new(bytes: &'a [u8]) -> ScriptSource<'a> {
        ScriptSource {
            rest: bytes,
            line: 1,
            part: SourcePart::Lead,
        }
    }

    /// The number of the current line.
    pub(crate) fn number(&self) -> u64 {
        self.line
    }

    /// The current line.
    pub(crate) fn line(&self) -> &'a [u8] {
        without_returns(first_line(self.rest).0)
    }

    /// How many bytes are left.
    pub(crate) fn len(&self) -> usize {
        self.rest.len()
    }

    /// The current line is the first of a head.
    pub(crate) fn begin_head(&mut self) {
        self.part = SourcePart::Head;
    }

    /// Continues to the next line. Returns the text of the current line if it is a comment, else nothing.
    pub(crate) fn next_comment(&mut self) -> &'a [u8] {
        let line = self.line();
        let words: &'a [u8] = match self.part {
            SourcePart::Lead => comment_words(line),
            _ => &[],
        };
        self.part = self.part.below(line);
        self.rest = first_line(self.rest).1;
        self.line = self.line.saturating_add(1);
        words
    }
}
