//! Writing a book.

ghost use Rattle.std.specs.Prelude.{◌≡◌, ◌++◌, ◌∷◌, [], List, None, IfOk, OnOk, option_copied, string_bytes};
ghost use Rattle.std.specs.List.{flat_map};
ghost use Rattle.rb_book.specs.Books.{AreChaptersOf, IsBookOf, IsChapterOf, joined};
ghost use Rattle.rb_book.specs.Contents.{contents_text};
ghost use Rattle.rb_book.specs.Sites.{AddsFiles, SiteFile};

use crate::chapter::Chapter;
use crate::chapter_texts::ChapterTexts;
use crate::contents::contents;
use crate::fault::BookFault;
use crate::html::BOOK_STYLE;
use crate::page::{back, front};
use crate::site::Site;
use rb_text::add_pieces;
use std::alloc::{AllocError, Global};

/// The style and the code of pages, in parts.
#[derive(Clone, Copy)]
pub struct Assets<'a> {
    pub style: &'a [&'a [u8]],
    pub code: &'a [&'a [u8]],
}

/// Writes a book of the chapters under a title: a page and a picture for each, the contents page, the style and the code.
///
/// # Errors
///
/// Why it was not written. The files that were written before are there.
pub fn write_book<S: Site, D: ChapterTexts>(
    alloc: Global,
    site: &mut S,
    texts: &D,
    title: &[u8],
    chapters: &[Chapter],
    assets: Assets<'_>,
) -> Result<(), BookFault>
    ensures { OnOk result ((files : List SiteFile) × IsBookOf (D.is_page texts.now) (D.is_picture texts.now) title.now chapters.now assets.entry files × AddsFiles (S.files site.old) (S.files site.new) files) }
{
    write_chapters(alloc, site, texts, chapters)?;
    let style = with_own_style(alloc, assets.style)?;
    site.write("page.css", style.as_slice())?;
    let code = joined(alloc, assets.code)?;
    site.write("page.js", code.as_slice())?;
    let page = contents(alloc, title, chapters)?;
    site.write("index.html", page.as_slice())?;
    Ok(())
}

// The page and the picture of each chapter.
fn write_chapters<S: Site, D: ChapterTexts>(
    alloc: Global,
    site: &mut S,
    texts: &D,
    chapters: &[Chapter],
) -> Result<(), BookFault>
    ensures { OnOk result ((files : List SiteFile) × AreChaptersOf (IsChapterOf (D.is_page texts.now) (D.is_picture texts.now)) None chapters.now files × AddsFiles (S.files site.old) (S.files site.new) files) }
{
    let mut last = None;
    let mut rest = chapters;
    while let Some((chapter, others)) = rest.split_first() {
        write_chapter(alloc, site, texts, last, chapter, others.first())?;
        last = Some(chapter);
        rest = others;
    }
    Ok(())
}

// The page and the picture of a chapter between two others.
fn write_chapter<S: Site, D: ChapterTexts>(
    alloc: Global,
    site: &mut S,
    texts: &D,
    last: Option<&Chapter>,
    chapter: &Chapter,
    following: Option<&Chapter>,
) -> Result<(), BookFault>
    ensures { OnOk result ((files : List SiteFile) × IsChapterOf (D.is_page texts.now) (D.is_picture texts.now) (option_copied last.entry) chapter.now (option_copied following.entry) files × AddsFiles (S.files site.old) (S.files site.new) files) }
{
    let name = chapter.place.as_bytes();
    let front = front(alloc, last, chapter, following)?;
    let back = back(alloc, chapter)?;
    let page = texts.page(alloc, &chapter.script, name, &front, &back)?;
    let page_path = with_ending(alloc, chapter.place.as_str(), ".html")?;
    site.write(page_path.as_str(), page.as_slice())?;
    let picture = texts.picture(alloc, &chapter.script, name)?;
    let picture_path = with_ending(alloc, chapter.place.as_str(), ".svg")?;
    site.write(picture_path.as_str(), picture.as_slice())?;
    Ok(())
}

fn with_ending(alloc: Global, place: &str, ending: &str) -> Result<String, AllocError>
    ensures { IfOk result (λ path. string_bytes path ≡ place.now ++ ending.now) }
{
    let mut path = String::from_str(alloc, place)?;
    path.push_str(ending)?;
    Ok(path)
}

// The pages' style, and that of a book.
fn with_own_style(alloc: Global, style: &[&[u8]]) -> Result<Vec<u8>, AllocError>
    ensures { IfOk result (λ text. text.items ≡ joined style.now ++ BOOK_STYLE.now) }
{
    let mut text = joined(alloc, style)?;
    text.extend_from_slice(BOOK_STYLE)?;
    Ok(text)
}

fn joined(alloc: Global, parts: &[&[u8]]) -> Result<Vec<u8>, AllocError>
    ensures { IfOk result (λ text. text.items ≡ joined parts.now) }
{
    let mut text = Vec::new(alloc);
    add_pieces(&mut text, parts)?;
    Ok(text)
}
