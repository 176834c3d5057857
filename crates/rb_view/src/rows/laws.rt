//! Laws of the JSON text.

ghost use Rattle.std.specs.Prelude.{◌≡◌, ◌≤◌, ◌+◌, ◌*◌, ◌∷◌, ℕ, List, length, true};
ghost use Rattle.std.specs.List.{flat_map, list_all, sum_by};
ghost use Rattle.rb_texts.specs.Items.{PlainItem};
ghost use Rattle.rb_text.specs.Json.{in_page};
ghost use Rattle.rb_view.specs.Escapes.{is_inert};
ghost use Rattle.rb_view.specs.ItemRows.{item_rows};
ghost use Rattle.rb_view.specs.Json.{AreRows, has_bytes};
ghost use Rattle.rb_view.specs.Rows.{Row, rows_text};
ghost use Rattle.rb_view.specs.Sizes.{count_of, row_size};

/// Whatever rows there are, no byte of their text is `<`, `>` or `&`, or past ASCII: the text ends no element, begins none, and is the
/// same in every encoding that holds ASCII.
pub fn rows_are_inert()
    ensures { (first : Row) (rest : List Row) → list_all is_inert (rows_text first rest) ≡ true }
{}

/// A text takes at most six bytes for each of its own.
pub fn texts_grow_little()
    ensures { (bytes : List ℕ) → length (flat_map in_page bytes) ≤ 6 * length bytes }
{}

/// The text of rows is a text of JSON, by its grammar, and these rows are its value: a list of lists, each of a text, the name, and then
/// of numbers and texts, each character of which is a byte.
pub fn rows_are_json()
    ensures { (first : Row) (rest : List Row) → list_all has_bytes (first ∷ rest) ≡ true → AreRows first rest (rows_text first rest) }
{}

/// The text grows with what the rows say: it is at most as long as all of them, counted by their digits and bytes.
pub fn rows_grow_with_what_they_say()
    ensures { (first : Row) (rest : List Row) → length (rows_text first rest) ≤ 1 + sum_by row_size (first ∷ rest) }
{}

/// An item that happened has one row, and one that shows a node's state has none.
pub fn what_happens_has_a_row()
    ensures { (item : PlainItem) → length (item_rows item) ≡ count_of item }
{}
