// The check of posted tables (refusals 1 to 9, and 30): the sizes, the tables, the numbering, and whether it has found
// the bodies that the form wants.
#![tactic(auto)]

ghost use Rattle.std.specs.Prelude.{◌≡◌, ℕ, false, ◌≤◌, ◌<◌, length};
ghost use Rattle.rules.specs.Lists.{first, found};
ghost use Rattle.rules.specs.Map.{by_dart};
ghost use Rattle.tables.specs.Maps.{of};
ghost use Rattle.rules.specs.Check.{verdict, verdict_of, check_answer, check_work};
ghost use Rattle.checker.specs.Parts.{numberless, misfit_of, misbuilt_of, misjoined_of};

use rules::{CheckAnswer, Form, Reason, Refusal, Session};
use tables::{Map, ValidMap};

// The least dart that has no walk number; those before `from` have one.
pub fn first_unnumbered(work: &[u16], from: usize, darts: usize) -> Option<usize>
    requires { (darts ≤ length work.now) × (from ≤ darts) × ((d : ℕ) → d < from → numberless work.now d ≡ false) }
    ensures { result ≡ found (first (numberless work.now) darts) darts }
{
    for d in from..darts {
        if work[d] == Session::NO_LINK {
            return Some(d);
        }
    }
    None
}

// Refusals 1 to 5.
pub fn misfit(
    dim: usize,
    darts: usize,
    root: usize,
    tables: usize,
    work: usize,
) -> Result<(), Refusal>
    ensures { verdict_of result ≡ misfit_of dim darts root tables work }
{
    if dim < 1 {
        return Err(Refusal::of(Reason::Dimension));
    }
    if 6 < dim {
        return Err(Refusal::of(Reason::Dimension));
    }
    if darts < 1 {
        return Err(Refusal::of(Reason::Darts));
    }
    if Session::DARTS < darts {
        return Err(Refusal::of(Reason::Darts));
    }
    if tables < (dim + 1) * darts {
        return Err(Refusal::of(Reason::ShortTables));
    }
    if work < 2 * darts {
        return Err(Refusal::of(Reason::ShortWork));
    }
    if darts <= root {
        return Err(Refusal::of(Reason::Root));
    }
    Ok(())
}

// The first of refusals 6 to 8 in the stated order.
pub fn first_misbuilt(map: &Map) -> Result<(), Refusal>
    ensures { verdict_of result ≡ of misbuilt_of map.now }
{
    // a link that leads back is a dart: where all do, 6 needs no search of its own
    if let Some(t) = map.first_twisted() {
        if let Some(k) = map.first_outside() {
            return Err(Refusal {
                reason: Reason::Entry,
                place: map.place(k / map.darts, k % map.darts) as u32,
            });
        }
        return Err(Refusal {
            reason: Reason::Inverse,
            place: map.place(t / map.darts, t % map.darts) as u32,
        });
    }
    if let Some(d) = map.first_broken() {
        return Err(Refusal {
            reason: Reason::Manifold,
            place: d as u32,
        });
    }
    Ok(())
}

// Refusals 6 to 8. One pass over the darts tells that there is none; only where it finds something is the first place
// sought.
pub fn misbuilt(map: &Map) -> Result<(), Refusal>
    ensures { verdict_of result ≡ of misbuilt_of map.now }
{
    if map.all_sound() {
        return Ok(());
    }
    first_misbuilt(map)
}

// Refusal 9 where a dart has no walk number, in the several form 30 where one body is all. The report's, by marks, asks
// something else in the several form, and the one-body form alone searches: no common function is plainer.
pub fn misjoined(form: Form, work: &[u16], darts: usize, bodies: u16) -> Result<(), Refusal>
    requires { (darts ≤ length work.now) × (darts ≤ 4096) }
    ensures { verdict_of result ≡ misjoined_of form darts work.now bodies }
{
    match form {
        Form::One => {
            if let Some(d) = first_unnumbered(work, 0, darts) {
                return Err(Refusal {
                    reason: Reason::NotReached,
                    place: d as u32,
                });
            }
        }
        Form::Several => {
            if bodies == 1 {
                return Err(Refusal::of(Reason::OneBody));
            }
        }
    }
    Ok(())
}

// The check for those that go on where it passes: the work room is left as the check leaves it.
pub fn checked(
    form: Form,
    dim: usize,
    darts: usize,
    root: usize,
    tables: &[u16],
    work: &mut [u16],
) -> Result<(), Refusal>
    ensures { (verdict_of result ≡ verdict form by_dart dim darts root tables.now (length work.old))
        × (work.new ≡ check_work form by_dart dim darts root tables.now work.old) }
{
    misfit(dim, darts, root, tables.len(), work.len())?;
    let map = Map { dim, darts, tables };
    misbuilt(&map)?;
    let valid = ValidMap { map };
    let bodies = walk::number_all(form, &valid, work, root);
    let joined = misjoined(form, work, darts, bodies);
    if joined.is_ok() {
        return joined;
    }
    tables::blank(work, 2 * darts);
    joined
}

// The check of posted tables. Public calls take N, n and the rooms apart, as C has them.
pub fn check(
    form: Form,
    dim: usize,
    darts: usize,
    root: usize,
    tables: &[u16],
    work: &mut [u16],
) -> CheckAnswer
    ensures { (result ≡ check_answer form by_dart dim darts root tables.now work.old)
        × (work.new ≡ check_work form by_dart dim darts root tables.now work.old) }
{
    match checked(form, dim, darts, root, tables, work) {
        Ok(()) => CheckAnswer {
            number: 0,
            place: 0,
        },
        Err(r) => CheckAnswer::from(r),
    }
}
