//! The lines of a text above one of them.

ghost use Rattle.std.specs.Prelude.{◌≡◌, ◌≤◌, length};
ghost use Rattle.rb_lsp.specs.Tables.{feed_start};
ghost use Rattle.rb_editor.specs.Findings.{above};
ghost use Rattle.rb_editor.specs.RangeFormatting.{lines_before};

/// Where a line of a text begins, which counts from 0: at its end, if it has fewer lines.
pub(crate) fn line_start(text: &[u8], line: usize) -> usize
    ensures start { result ≡ feed_start line text.now }
    ensures within { result ≤ length text.now }
{
    let mut left = line;
    for (at, b) in text.iter().enumerate() {
        if left == 0 {
            return at;
        }
        if *b == b'\n' {
            left -= 1;
        }
    }
    text.len()
}

/// The text above a line, which counts from 0.
pub(crate) fn lines_before(text: &[u8], line: usize) -> &[u8]
    ensures value { result.now ≡ lines_before line text.now }
    ensures within { length result.now ≤ length text.now }
{
    &text[..line_start(text, line)]
}

/// The text above a line, which counts from 1.
pub(crate) fn above(text: &[u8], line: usize) -> &[u8]
    ensures { result.now ≡ above line text.now }
{
    let end = line_start(text, line.saturating_sub(1));
    &text[..end]
}
