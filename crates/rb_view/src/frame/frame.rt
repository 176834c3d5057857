//! What is around the rows of a page, in parts. Made by `tests/page/assemble.py sources`.

ghost use Rattle.std.specs.Prelude.{◌≡◌, ◌∷◌, [], map};

use crate::frame::after_style::AFTER_STYLE;
use crate::frame::describe::DESCRIBE;
use crate::frame::difference::DIFFERENCE;
use crate::frame::dom::DOM;
use crate::frame::history::HISTORY;
use crate::frame::html::{BETWEEN, BODY, END, HEAD};
use crate::frame::keys::KEYS;
use crate::frame::layout::LAYOUT;
use crate::frame::legend::LEGEND;
use crate::frame::lines::LINES;
use crate::frame::logs::LOGS;
use crate::frame::logs_style::LOGS_STYLE;
use crate::frame::mail::MAIL;
use crate::frame::measure::MEASURE;
use crate::frame::narrow_style::NARROW_STYLE;
use crate::frame::page::PAGE;
use crate::frame::paint::PAINT;
use crate::frame::paper_style::PAPER_STYLE;
use crate::frame::picture::PICTURE;
use crate::frame::picture_style::PICTURE_STYLE;
use crate::frame::play::PLAY;
use crate::frame::position::POSITION;
use crate::frame::print::PRINT;
use crate::frame::route::ROUTE;
use crate::frame::rows::ROWS;
use crate::frame::script::SCRIPT;
use crate::frame::script_style::SCRIPT_STYLE;
use crate::frame::search::SEARCH;
use crate::frame::sizes::SIZES;
use crate::frame::source::SOURCE;
use crate::frame::start::START;
use crate::frame::state::STATE;
use crate::frame::style::STYLE;
use crate::frame::text::TEXT;
use crate::frame::words::WORDS;
use crate::frame::wrap::WRAP;

/// The parts before the rows: the page's head with its style, and its elements.
#[rattlefmt::skip]
pub fn front() -> [&'static [u8]; 9]
    ensures { map (λ part. part.now) result ≡ HEAD.now ∷ STYLE.now ∷ SCRIPT_STYLE.now ∷ PICTURE_STYLE.now ∷ LOGS_STYLE.now ∷ AFTER_STYLE.now ∷ NARROW_STYLE.now ∷ PAPER_STYLE.now ∷ BODY.now ∷ [] }
{
    [HEAD, STYLE, SCRIPT_STYLE, PICTURE_STYLE, LOGS_STYLE, AFTER_STYLE, NARROW_STYLE, PAPER_STYLE, BODY]
}

/// The parts after them: the page's code.
#[rattlefmt::skip]
pub fn back() -> [&'static [u8]; 30]
    ensures { map (λ part. part.now) result ≡ BETWEEN.now ∷ DOM.now ∷ HISTORY.now ∷ SIZES.now ∷ TEXT.now ∷ WORDS.now ∷ PAINT.now ∷ LEGEND.now ∷ KEYS.now ∷ POSITION.now ∷ LOGS.now ∷ MEASURE.now ∷ ROUTE.now ∷ LAYOUT.now ∷ DESCRIBE.now ∷ PICTURE.now ∷ PLAY.now ∷ LINES.now ∷ DIFFERENCE.now ∷ WRAP.now ∷ PRINT.now ∷ SCRIPT.now ∷ SEARCH.now ∷ STATE.now ∷ PAGE.now ∷ MAIL.now ∷ SOURCE.now ∷ ROWS.now ∷ START.now ∷ END.now ∷ [] }
{
    [BETWEEN, DOM, HISTORY, SIZES, TEXT, WORDS, PAINT, LEGEND, KEYS, POSITION, LOGS, MEASURE, ROUTE, LAYOUT, DESCRIBE, PICTURE, PLAY, LINES, DIFFERENCE, WRAP, PRINT, SCRIPT, SEARCH, STATE, PAGE, MAIL, SOURCE, ROWS, START, END]
}
