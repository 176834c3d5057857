//! An answer below its title.

ghost use Rattle.std.specs.Prelude.{◌≡◌, ◌∷◌, ◌++◌, [], map, OnOk};
ghost use Rattle.rb_view.specs.Looks.{without, shown};

use rb_script::Lines;
use std::alloc::AllocError;

// The line without the word, if it begins with it.
fn without<'a>(line: &'a [u8], word: &[u8]) -> &'a [u8]
    ensures { result.now ≡ without word.now line.now }
{
    match line.strip_prefix(word) {
        Some(rest) => rest,
        None => line,
    }
}

fn add_shown(lines: &mut Lines, line: &[u8], word: &[u8]) -> Result<(), AllocError>
    ensures { OnOk result (lines.new ≡ lines.old ++ shown word.now line.now ∷ []) }
{
    let mut text = lines.new_text(line.len().saturating_add(2))?;
    text.extend_from_slice(b"  ")?;
    text.extend_from_slice(without(line, word))?;
    lines.push(&text)
}

/// Adds a title, and below it the lines of an answer, each without its first word.
pub(crate) fn add_section(
    lines: &mut Lines,
    title: &[u8],
    answer: &Lines,
    word: &[u8],
) -> Result<(), AllocError>
    ensures { OnOk result (lines.new ≡ lines.old ++ title.now ∷ map (shown word.now) answer.now) }
{
    lines.push(title)?;
    for i in 0..answer.len() {
        add_shown(lines, answer.line(i), word)?;
    }
    Ok(())
}
