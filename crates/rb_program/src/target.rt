//! The PATHs of `check`, and FILE:LINE.

ghost use Rattle.std.specs.Prelude.{◌≡◌, IfOk, option_map, string_bytes};
ghost use Rattle.rb_program.specs.Choices.{path_and_line};
ghost use Rattle.rb_program.specs.Targets.{AreNamed, Names, NamesLine};

use crate::path_kind::{PathKind, PathKinds};
use rb_check::Target;
use rb_text::number_of;
use std::alloc::{AllocError, Global};

/// FILE, and the number after the argument's last colon.
pub(crate) fn path_and_line(word: &str) -> Option<(&str, usize)>
    ensures { option_map (λ found. (found.0.now, found.1)) result ≡ path_and_line word.now }
{
    match word.rsplit_once(':') {
        Some((path, line)) => match number_of(line.as_bytes()) {
            Some(line) => Some((path, line as usize)),
            None => None,
        },
        None => None,
    }
}

/// What the arguments name. One that ends in a colon and a number names a directive of a file, unless it is itself the name of something.
pub(crate) fn targets<S: PathKinds>(
    alloc: Global,
    system: &S,
    words: &[String],
) -> Result<Vec<Target>, AllocError>
    ensures { IfOk result (λ targets. AreNamed (S.tells_kind system.now) words.now targets.items) }
{
    let mut all = Vec::new(alloc);
    for word in words {
        let (path, line) = named(system, word.as_str());
        let target = target(alloc, path, line)?;
        all.push(target)?;
    }
    Ok(all)
}

fn target(alloc: Global, path: &str, line: Option<usize>) -> Result<Target, AllocError>
    ensures { IfOk result (λ target. (string_bytes target.path ≡ path.now) × (target.line ≡ line)) }
{
    let path = String::from_str(alloc, path)?;
    Ok(Target { path, line })
}

// The path that a word names, and the line of its file. A word is a path if something is there.
fn named<'a, S: PathKinds>(system: &S, word: &'a str) -> (&'a str, Option<usize>)
    ensures { Names (S.tells_kind system.now) word.now result.0.now result.1 }
{
    match system.kind_at(word) {
        PathKind::File | PathKind::Other => (word, None),
        PathKind::Nothing => line_named(system, word),
    }
}

// The same, if nothing is at the word's path: FILE and the line, if FILE is a file.
fn line_named<'a, S: PathKinds>(system: &S, word: &'a str) -> (&'a str, Option<usize>)
    ensures { NamesLine (S.tells_kind system.now) word.now result.0.now result.1 }
{
    let Some((path, line)) = path_and_line(word) else {
        return (word, None);
    };
    match system.kind_at(path) {
        PathKind::File => (path, Some(line)),
        PathKind::Other | PathKind::Nothing => (word, None),
    }
}
