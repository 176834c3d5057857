//! Configurations.
//!
//! A configuration always shows its voters. It shows the outgoing voters of a joint one, learners, and voters that become learners if
//! there are any (Ongaro's thesis, section 4.3).

ghost use Rattle.std.specs.Prelude.{◌≡◌, ◌++◌, OnOk};
ghost use Rattle.rb_texts.specs.Configs.{config_text, part_text};

use crate::piece::{LinePiece, add_bytes, add_pieces, shown_if};
use rb_script::LineText;
use rb_tracker::Config;
use std::alloc::AllocError;

pub(crate) fn add_config(line: &mut LineText, config: &Config) -> Result<(), AllocError>
    ensures { OnOk result (line.new ≡ line.old ++ config_text config.now) }
{
    let voters = [
        LinePiece::Bytes(b"voters=("),
        LinePiece::Ids(config.incoming.as_slice()),
        LinePiece::Bytes(b")"),
    ];
    add_pieces(line, &voters)?;
    add_part(line, b" outgoing=(", config.outgoing.as_slice())?;
    add_part(line, b" learners=(", config.learners.as_slice())?;
    add_part(line, b" next=(", config.next.as_slice())?;
    add_bytes(line, shown_if(config.auto, b" auto"))
}

// Adds a part of a configuration, if it isn't empty.
fn add_part<'a>(line: &mut LineText, name: &'a [u8], ids: &'a [u64]) -> Result<(), AllocError>
    ensures { OnOk result (line.new ≡ line.old ++ part_text name.now ids.now) }
{
    if ids.is_empty() {
        return Ok(());
    }
    let pieces = [
        LinePiece::Bytes(name),
        LinePiece::Ids(ids),
        LinePiece::Bytes(b")"),
    ];
    add_pieces(line, &pieces)
}
