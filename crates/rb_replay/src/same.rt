//! Comparing the directives of blocks. A run reads nothing else of a block.

ghost use Rattle.std.specs.Prelude.{◌≡◌, ◌<◌, ◌↔◌, IsTrue, length};
ghost use Rattle.rb_script.specs.Directive.{plain_argument};
ghost use Rattle.rb_script.specs.Tokens.{plain};
ghost use Rattle.rb_script.specs.Heads.{directive_of};

use rb_script::{Block, DirectiveRef};

/// Compares the directives of two blocks: their names, arguments and input lines.
pub(crate) fn has_same_directive(a: &Block, b: &Block) -> bool
    ensures { IsTrue result ↔ (directive_of a.now ≡ directive_of b.now) }
{
    is_same(&a.directive(), &b.directive())
}

fn is_same(a: &DirectiveRef<'_>, b: &DirectiveRef<'_>) -> bool
    ensures { IsTrue result ↔ (plain a.now ≡ plain b.now) }
{
    a.name() == b.name() && has_same_arguments(a, b) && has_same_inputs(a, b)
}

fn has_same_arguments(a: &DirectiveRef<'_>, b: &DirectiveRef<'_>) -> bool
    ensures { IsTrue result ↔ ((plain a.now).args ≡ (plain b.now).args) }
{
    if a.args() != b.args() {
        return false;
    }
    for i in 0..a.args() {
        if !is_same_argument(a, b, i) {
            return false;
        }
    }
    true
}

fn is_same_argument(a: &DirectiveRef<'_>, b: &DirectiveRef<'_>, i: usize) -> bool
    requires first { i < length (plain a.now).args }
    requires second { i < length (plain b.now).args }
    ensures { IsTrue result ↔ (plain_argument (plain a.now) i ≡ plain_argument (plain b.now) i) }
{
    a.key(i) == b.key(i) && a.has_equals(i) == b.has_equals(i) && has_same_values(a, b, i)
}

fn has_same_values(a: &DirectiveRef<'_>, b: &DirectiveRef<'_>, i: usize) -> bool
    requires first { i < length (plain a.now).args }
    requires second { i < length (plain b.now).args }
    ensures { IsTrue result ↔ ((plain_argument (plain a.now) i).values ≡ (plain_argument (plain b.now) i).values) }
{
    if a.values(i) != b.values(i) {
        return false;
    }
    for j in 0..a.values(i) {
        if a.value(i, j) != b.value(i, j) {
            return false;
        }
    }
    true
}

fn has_same_inputs(a: &DirectiveRef<'_>, b: &DirectiveRef<'_>) -> bool
    ensures { IsTrue result ↔ (a.now.inputs ≡ b.now.inputs) }
{
    if a.inputs() != b.inputs() {
        return false;
    }
    for i in 0..a.inputs() {
        if a.input(i) != b.input(i) {
            return false;
        }
    }
    true
}
