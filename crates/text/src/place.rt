// A place in a text.
#![tactic(auto)]

ghost use Rattle.text.specs.Fresh.{Fresh};

// A position in a text where no comment goes on.
#[derive(Clone, Copy)]
pub struct Place<'a> {
    pub text: &'a [u8],
    pub at: usize,
    ghost fresh: { Fresh text.now at },
}
