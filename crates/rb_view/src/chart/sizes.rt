//! Sizes, in pixels. Sums stop at the largest number, which no script's picture comes near.

ghost use Rattle.std.specs.Prelude.{◌≡◌};
ghost use Rattle.rb_view.specs.Paths.{beside, middle};

/// The height of an item.
pub(crate) const SLOT: u64 = 18;
/// The height of a directive's head, and the room below its row.
pub(crate) const ROW_TOP: u64 = 25;

pub(crate) const ROW_BOTTOM: u64 = 8;
/// The height of the nodes' names.
pub(crate) const HEADING: u64 = 34;
/// The position of the first node, the distance to the next, and the room after the last.
const FIRST: u64 = 280;

const GAP: u64 = 220;

const LEAST: u64 = 60;
/// The room to the right of the drawing.
pub(crate) const EDGE: u64 = 10;
/// The length of the level part of an arrow, along its label.
pub(crate) const LEAD: u64 = 170;
/// The width of the arrow of a message that a node sends to itself.
pub(crate) const OUT: u64 = 40;
/// Half of the widest band.
pub(crate) const HALF_BAND: u64 = 5;
/// Half of the gap in the band of a node that restarts.
pub(crate) const HALF_GAP: u64 = 4;
/// The distance of words from the middle of a band.
pub(crate) const ASIDE: u64 = HALF_BAND + 5;
/// The most columns that are shown: of a head, of a note, of a message's label, and of a mark.
pub(crate) const MOST_HEAD: usize = 32;

pub(crate) const MOST_NOTE: usize = 36;

pub(crate) const MOST_LABEL: usize = 30;

pub(crate) const MOST_MARK: usize = 29;

/// The middle of a node's band.
pub(crate) fn middle(id: u64) -> u64
    ensures { result ≡ middle id }
{
    FIRST.saturating_add(GAP.saturating_mul(id.saturating_sub(1)))
}

/// The least right edge of a picture of n nodes.
pub(crate) fn least_right(nodes: usize) -> u64 {
    middle((nodes as u64).max(1)).saturating_add(LEAST)
}

/// The position at a distance from another, to the left or to the right.
pub(crate) fn beside(x: u64, is_left: bool, far: u64) -> u64
    ensures { result ≡ beside x is_left far }
{
    if is_left {
        x.saturating_sub(far)
    } else {
        x.saturating_add(far)
    }
}

/// The right edge of the arrow of a message that doesn't arrive.
pub(crate) fn right_edge(from: u64, to: u64) -> u64 {
    let x = middle(from);
    if to == from {
        x.saturating_add(HALF_BAND + 1).saturating_add(OUT)
    } else if to < from {
        beside(x, true, LEAD)
    } else {
        x.saturating_add(LEAD).saturating_add(26)
    }
}
