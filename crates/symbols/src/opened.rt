// What a symbol is taken out of.
#![tactic(auto)]

ghost use Rattle.symbols.specs.Hands.{HandFits, Needed};

use crate::Hand;

// The first bits of a symbol in a hand, and the hand's page: at least one bit, and no byte that the symbol isn't in.
#[derive(Clone, Copy)]
pub struct Opened<'a> {
    pub hand: Hand,
    pub page: &'a [u8],
    ghost fits: { HandFits hand page.now },
    ghost needed: { Needed hand },
}
