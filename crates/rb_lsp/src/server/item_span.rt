//! Some items of a document.

ghost use Rattle.std.specs.Prelude.{◌≡◌};
ghost use Rattle.serde_json.specs.View.{view};
ghost use Rattle.rb_lsp.specs.ItemSpans.{span_of};

use crate::rpc::number_at;
use serde_json::Value;

/// Some items of a document, one after another.
#[derive(Clone, Copy, Debug, PartialEq, Eq)]
pub struct ItemSpan {
    /// How many are before them.
    pub from: u64,
    /// How many they are.
    pub count: u64,
}

/// The items that parameters name by two numbers.
pub(crate) fn span_of(params: &Value) -> Option<ItemSpan>
    ensures { result ≡ span_of (view params.now) }
{
    Some(ItemSpan {
        from: number_at(params, "from")?,
        count: number_at(params, "count")?,
    })
}
