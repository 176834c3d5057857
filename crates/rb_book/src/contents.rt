//! The contents page of a book.

ghost use Rattle.std.specs.Prelude.{◌≡◌, ◌++◌, IfOk, OnOk};
ghost use Rattle.rb_book.specs.Contents.{contents_text, head_text, rows_text};

use crate::chapter::Chapter;
use crate::html::CONTENTS;
use crate::piece::HtmlPiece;
use rb_text::add_pieces;
use std::alloc::{AllocError, Global};

/// The contents page of the chapters, under a title.
pub(crate) fn contents(
    alloc: Global,
    title: &[u8],
    chapters: &[Chapter],
) -> Result<Vec<u8>, AllocError>
    ensures { IfOk result (λ text. text.items ≡ contents_text title.now chapters.now) }
{
    let mut text = Vec::new(alloc);
    add_head(&mut text, title)?;
    add_rows(&mut text, chapters)?;
    text.extend_from_slice(b"</ol>\n</body>\n</html>\n")?;
    Ok(text)
}

fn add_head(text: &mut Vec<u8>, title: &[u8]) -> Result<(), AllocError>
    ensures { OnOk result (text.new.items ≡ text.old.items ++ head_text title.now) }
{
    add_pieces(
        text,
        &[
            HtmlPiece::Bytes(CONTENTS),
            HtmlPiece::Text(title),
            HtmlPiece::Bytes(
                b"</title>\n<link rel=\"stylesheet\" href=\"page.css\">\n</head>\n<body class=\"contents\">\n<h1>",
            ),
            HtmlPiece::Text(title),
            HtmlPiece::Bytes(b"</h1>\n<ol>\n"),
        ],
    )
}

// A row for each chapter, or one that says that there is none.
fn add_rows(text: &mut Vec<u8>, chapters: &[Chapter]) -> Result<(), AllocError>
    ensures { OnOk result (text.new.items ≡ text.old.items ++ rows_text chapters.now) }
{
    match chapters {
        [] => text.extend_from_slice(b"<li>No script differs.</li>\n"),
        _ => add_pieces(text, chapters),
    }
}
