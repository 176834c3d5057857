//! What is around the rows of a chapter's page: links to the style and the code, and to the pages before and after it.

ghost use Rattle.std.specs.Prelude.{◌≡◌, ◌++◌, IfOk, OnOk, Some, option_copied};
ghost use Rattle.rb_book.specs.Pages.{back_text, first_link_text, front_text, head_text, link_front, link_sign, link_text, links_text, place_of, without_text};

use crate::chapter::Chapter;
use crate::html::{BETWEEN, ELEMENTS, END, HEAD, LINKED};
use crate::piece::HtmlPiece;
use rb_text::add_pieces;
use std::alloc::{AllocError, Global};

/// What is before the rows of a chapter's page, between those of two others.
pub(crate) fn front(
    alloc: Global,
    last: Option<&Chapter>,
    chapter: &Chapter,
    following: Option<&Chapter>,
) -> Result<Vec<u8>, AllocError>
    ensures { IfOk result (λ text. text.items ≡ front_text (option_copied last.entry) chapter.now (option_copied following.entry)) }
{
    let place = chapter.place.as_bytes();
    let mut text = Vec::new(alloc);
    add_head(&mut text, place)?;
    add_links(&mut text, place, last, following)?;
    add_without(&mut text, place)?;
    text.extend_from_slice(ELEMENTS)?;
    Ok(text)
}

// The head of the page at a place, up to its links.
fn add_head(text: &mut Vec<u8>, place: &[u8]) -> Result<(), AllocError>
    ensures { OnOk result (text.new.items ≡ text.old.items ++ head_text place.now) }
{
    add_pieces(
        text,
        &[
            HtmlPiece::Bytes(HEAD),
            HtmlPiece::WayUp(place),
            HtmlPiece::Bytes(LINKED),
        ],
    )
}

/// What is after them.
pub(crate) fn back(alloc: Global, chapter: &Chapter) -> Result<Vec<u8>, AllocError>
    ensures { IfOk result (λ text. text.items ≡ back_text chapter.now) }
{
    let mut text = Vec::new(alloc);
    add_pieces(
        &mut text,
        &[
            HtmlPiece::Bytes(BETWEEN),
            HtmlPiece::WayUp(chapter.place.as_bytes()),
            HtmlPiece::Bytes(END),
        ],
    )?;
    Ok(text)
}

// The links of the page at a place to the contents, and to the pages of the chapters before and after it.
fn add_links(
    text: &mut Vec<u8>,
    place: &[u8],
    last: Option<&Chapter>,
    following: Option<&Chapter>,
) -> Result<(), AllocError>
    ensures { OnOk result (text.new.items ≡ text.old.items ++ links_text place.now (option_copied last.entry) (option_copied following.entry)) }
{
    add_first_link(text, place)?;
    add_link(text, place, Neighbour::Last, last)?;
    add_link(text, place, Neighbour::Following, following)?;
    text.extend_from_slice(b"</nav>\n")?;
    Ok(())
}

// The link to the contents.
fn add_first_link(text: &mut Vec<u8>, place: &[u8]) -> Result<(), AllocError>
    ensures { OnOk result (text.new.items ≡ text.old.items ++ first_link_text place.now) }
{
    add_pieces(
        text,
        &[
            HtmlPiece::Bytes(b"<nav class=\"book\" aria-label=\"Book\"><a href=\""),
            HtmlPiece::WayUp(place),
            HtmlPiece::Bytes(b"index.html\">Contents</a>"),
        ],
    )
}

// The chapter that a link leads to.
#[derive(Clone, Copy)]
enum Neighbour {
    Last,
    Following,
}

// How a link begins.
fn link_front(neighbour: Neighbour) -> &'static [u8]
    ensures { result.now ≡ link_front neighbour }
{
    match neighbour {
        Neighbour::Last => b"<a rel=\"prev\" href=\"",
        Neighbour::Following => b"<a rel=\"next\" href=\"",
    }
}

// What is before the name in a link.
fn link_sign(neighbour: Neighbour) -> &'static [u8]
    ensures { result.now ≡ link_sign neighbour }
{
    match neighbour {
        Neighbour::Last => b".html\">&larr; ",
        Neighbour::Following => b".html\">&rarr; ",
    }
}

// A link from the page at a place to that of another chapter, if there is one.
fn add_link(
    text: &mut Vec<u8>,
    place: &[u8],
    neighbour: Neighbour,
    other: Option<&Chapter>,
) -> Result<(), AllocError>
    ensures { OnOk result (text.new.items ≡ text.old.items ++ link_text place.now neighbour (place_of (option_copied other.entry))) }
{
    match other {
        Some(other) => add_link_to(text, place, neighbour, other.place.as_bytes()),
        None => Ok(()),
    }
}

fn add_link_to<'x>(
    text: &mut Vec<u8>,
    place: &'x [u8],
    neighbour: Neighbour,
    name: &'x [u8],
) -> Result<(), AllocError>
    ensures { OnOk result (text.new.items ≡ text.old.items ++ link_text place.now neighbour (Some name.now)) }
{
    add_pieces(
        text,
        &[
            HtmlPiece::Bytes(link_front(neighbour)),
            HtmlPiece::WayUp(place),
            HtmlPiece::Address(name),
            HtmlPiece::Bytes(link_sign(neighbour)),
            HtmlPiece::Text(name),
            HtmlPiece::Bytes(b"</a>"),
        ],
    )
}

// What is shown where scripts don't run: a sentence, and the picture.
fn add_without(text: &mut Vec<u8>, place: &[u8]) -> Result<(), AllocError>
    ensures { OnOk result (text.new.items ≡ text.old.items ++ without_text place.now) }
{
    add_pieces(
        text,
        &[
            HtmlPiece::Bytes(
                b"<noscript><p>With JavaScript, this page goes through the script step by step. Here is its picture.</p><img src=\"",
            ),
            HtmlPiece::WayUp(place),
            HtmlPiece::Address(place),
            HtmlPiece::Bytes(b".svg\" alt=\"The messages of "),
            HtmlPiece::Text(place),
            HtmlPiece::Bytes(b"\"></noscript>\n"),
        ],
    )
}
