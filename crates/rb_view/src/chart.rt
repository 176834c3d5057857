//! A picture of a script's run, as a document of SVG that needs no scripts (docs/FORMATS.md).
//!
//! [`chart_of`] runs a script and observes each directive: nodes are next to each other, time goes down, and messages are
//! arrows. The arrows are proved: one for each message that was sent, in order, with its ending; those that wait are of
//! the messages that are pending. [`put_chart`] writes the document. Its text is the definition's text of the picture, in
//! which each text of a script is a text of XML. Vertical positions are tested against another program.

mod arrow;
mod arrows;
mod builder;
mod canvas;
mod canvas_arrows;
mod chart;
mod choice;
mod columns;
mod css_class;
mod draw;
mod escape;
mod in_flight;
mod labels;
mod laws;
mod marks;
mod measure;
mod messages;
mod painting;
mod part;
mod path;
mod piece;
mod row_layout;
mod sentence;
mod shape;
mod shown;
mod sizes;
mod source;
mod style;
mod telling;
mod title;
mod writing;

pub use arrow::{Arrow, ArrowPlace};
pub use arrows::Arrows;
pub use chart::Chart;
pub use css_class::{CssClass, DeliveryState};
pub use draw::{ChartFault, ChartScript, DrawnRun, MAX_EVENTS, chart_of};
pub use in_flight::{InFlight, MessageChange};
pub use laws::{
    arrows_are_of_what_is_sent, messages_end_their_own_arrows, pictures_show_what_is_pending,
    what_is_on_its_way_waits, what_waits_is_pending, words_have_no_brackets, words_read_back,
};
pub use part::{ChartPart, ChartPhase};
pub use path::DrawnArrow;
pub use shape::Shape;
pub use style::STYLE;
pub use writing::put_chart;
