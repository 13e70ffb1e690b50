// Where the next symbol is taken from.
#![tactic(auto)]

ghost use Rattle.symbols.specs.Cursors.{CursorFits};

use crate::Cursor;

// The bits at hand: those that wait, then the page's from a byte and a bit of it on.
#[derive(Clone, Copy)]
pub struct Bits<'a> {
    pub cursor: Cursor,
    pub page: &'a [u8],
    ghost fits: { CursorFits cursor page.now },
}
