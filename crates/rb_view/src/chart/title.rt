//! The titles of pictures.

ghost use Rattle.std.specs.Prelude.{◌≡◌, ◌++◌, IfOk, OnOk, true};
ghost use Rattle.std.specs.List.{list_all};
ghost use Rattle.rb_view.specs.Titles.{from_text, is_printable, title_text, until_text};

use crate::chart::part::ChartPart;
use crate::chart::shown::shown;
use rb_text::{Piece, add_pieces};
use std::alloc::{AllocError, Global};

fn add_from(title: &mut Vec<u8>, from: Option<u64>) -> Result<(), AllocError>
    ensures { OnOk result (title.new.items ≡ title.old.items ++ from_text from) }
{
    match from {
        Some(line) => add_pieces(title, &[Piece::Bytes(b", from line "), Piece::Number(line)]),
        None => Ok(()),
    }
}

fn add_until(title: &mut Vec<u8>, until: Option<u64>) -> Result<(), AllocError>
    ensures { OnOk result (title.new.items ≡ title.old.items ++ until_text until) }
{
    match until {
        Some(line) => add_pieces(
            title,
            &[Piece::Bytes(b", up to line "), Piece::Number(line)],
        ),
        None => Ok(()),
    }
}

/// The title of the picture of a script with a name.
pub(crate) fn title_of(alloc: Global, name: &[u8], part: ChartPart) -> Result<Vec<u8>, AllocError>
    ensures { IfOk result (λ title. list_all is_printable name.now ≡ true → title.items ≡ title_text name.now part.from part.until) }
{
    let mut title = shown(alloc, name)?;
    add_from(&mut title, part.from)?;
    add_until(&mut title, part.until)?;
    Ok(title)
}
