//! A text whose run stopped.

ghost use Rattle.std.specs.Prelude.{◌≡◌, true};
ghost use Rattle.rb_editor.specs.Stops.{is_head};

use rb_lsp::server::Stop;

/// Where a run stopped: the index of the directive, and its stop.
#[derive(Clone, Copy)]
pub(crate) struct DirectiveStop {
    pub(crate) index: usize,
    pub(crate) stop: Stop,
}

/// A text whose run stopped, at the directive with this index.
#[derive(Drop)]
pub(crate) struct StoppedText {
    pub(crate) text: Vec<u8>,
    pub(crate) index: usize,
    pub(crate) stop: Stop,
    ghost head: { is_head text.items index stop.line ≡ true },
}
