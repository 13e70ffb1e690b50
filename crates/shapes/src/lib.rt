// The rules of face files, document 02, E5: the answer. What it means is said in specs/: the text, the corners of its
// faces, the map that they make; laws about that are in proofs/.
#![tactic(auto)]

ghost use Rattle.std.specs.Prelude.{◌≡◌};
ghost use Rattle.rules.specs.Refusals.{number_of};
ghost use Rattle.shapes.specs.Faces.{refusal};

use rules::Refusal;

// The answer of a face file, in numbers as C takes it: n is 0 on a refusal. A text may be longer than 32 bits can say,
// and its place with it.
#[derive(Clone, Copy)]
pub struct FacesAnswer {
    pub number: u32,
    pub place: u64,
    pub darts: u32,
}

// A refusal, by its number.
#[tactic(auto, unfolding(crate::specs::Faces::refusal))]
pub fn refused(number: u32, place: u64) -> FacesAnswer
    ensures { result ≡ refusal number place }
{
    FacesAnswer {
        number,
        place,
        darts: 0,
    }
}

impl From<Refusal<u64>> for FacesAnswer {
    ghost from_gives = { λ r a. a ≡ refusal (number_of r.reason) r.place };

    fn from(r: Refusal<u64>) -> FacesAnswer {
        refused(r.reason.number(), r.place)
    }
}
