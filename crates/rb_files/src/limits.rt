//! The limits of files.

ghost use Rattle.std.specs.Prelude.{◌≡◌};
ghost use Rattle.rb_files.specs.declared.atomic_replace.TheConstants.{MOST_NAMES};
ghost use Rattle.rb_files.specs.declared.entry.TheConstants.{MOST_LINKS};
ghost use Rattle.rb_files.specs.declared.ignored.TheConstants.{MAX_IGNORED};

/// The numbers that definitions name: how many bytes an ignore file may have, how many links in a row are followed, and how many names of new files
/// are tried.
pub fn limits_are()
    ensures ignored { MAX_IGNORED ≡ 1048576 }
    ensures links { MOST_LINKS ≡ 40 }
    ensures names { MOST_NAMES ≡ 1000 }
{}
