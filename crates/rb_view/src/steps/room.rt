//! What a page has room for.

ghost use Rattle.std.specs.Prelude.{◌≡◌};
ghost use Rattle.rb_view.specs.PageRoom.{has_room, held};

use rb_script::Lines;

/// The most bytes of a page's rows, each with an end: memory stays below 200 MiB.
pub const MAX_PAGE: usize = 60_000_000;

/// Whether a page has room for these rows.
pub(crate) fn has_room(texts: &Lines) -> bool
    ensures { result ≡ has_room texts.now }
{
    texts.text().len() <= MAX_PAGE
}

/// The rows, if a page has room for them.
pub(crate) fn held(texts: Lines) -> Option<Lines>
    ensures { result ≡ held texts }
{
    if has_room(&texts) { Some(texts) } else { None }
}
