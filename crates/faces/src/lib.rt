// Reading face files (OFF text) into a map of dimension 2: 26 to 29, then 2, 3, 4 and the check of the map.
#![tactic(auto)]

ghost use Rattle.std.specs.Prelude.{◌≡◌, ◌*◌, ◌≤◌, ◌<◌, length};
ghost use Rattle.rules.specs.declared.Form.TheVariants.{One};
ghost use Rattle.rules.specs.Map.{by_dart};
ghost use Rattle.rules.specs.Check.{verdict, check_work};
ghost use Rattle.shapes.specs.Faces.{faces_answer_of, faces_answer, faces_tables, faces_work};
ghost use Rattle.build.specs.Parts.{Lefts};
ghost use Rattle.survey.specs.Flaws.{of, outline};
ghost use Rattle.faces.specs.Parts.{answer_of, fit_of, Planned, Posts, Refuses, Settles};

use rules::{Form, Reason, Refusal};
use shapes::FacesAnswer;
use sides::Block;
use survey::Plan;

// Refusals 2, 3 and 4.
fn fit(corners: usize, tables: usize, work: usize) -> Result<(), Refusal>
    requires { corners ≤ 2048 }
    ensures { result ≡ fit_of corners tables work }
{
    if corners == 0 {
        return Err(Refusal::of(Reason::Darts));
    }
    if tables < 6 * corners {
        return Err(Refusal::of(Reason::ShortTables));
    }
    if work < 4 * corners {
        return Err(Refusal::of(Reason::ShortWork));
    }
    Ok(())
}

// What a text of more corners than a map may have is refused by.
fn too_many(p: Plan<'_>) -> Refusal<u64>
    requires { of Planned p × (2048 < p.corners) }
    ensures { Refuses p.entry.start.text.now result }
{
    let x = sides::third_use(p.start, p.corners);
    if x < p.corners {
        return Refusal {
            reason: Reason::Side,
            place: corners::face_of(p.start, x) as u64,
        };
    }
    match p.flaw {
        Some(f) => Refusal::from(f),
        None => Refusal {
            reason: Reason::Darts,
            place: 0,
        },
    }
}

// The map's check, and n where it passes.
fn checked(corners: usize, tables: &[u16], work: &mut [u16]) -> Result<u32, Refusal<u64>>
    requires { corners ≤ 2048 }
    ensures { (answer_of result ≡ faces_answer_of (2 * corners)
        (verdict One by_dart 2 (2 * corners) 0 tables.now (length work.old)))
        × (work.new ≡ check_work One by_dart 2 (2 * corners) 0 tables.now work.old) }
{
    checker::checked(Form::One, 2, 2 * corners, 0, tables, work)?;
    Ok((2 * corners) as u32)
}

// A text without a third use before its flaw: the flaw, the sizes, and else the map and its check.
fn settled(
    p: Plan<'_>,
    tables: &mut [u16],
    work: &mut [u16],
    block: &Block,
) -> Result<u32, Refusal<u64>>
    requires { (p.corners ≤ 2048) × (p.flaw ≡ None → Lefts block.now.lefts p.corners) }
    ensures { Settles (outline p.entry) block.now.twins block.now.owns block.now.lefts tables.old
        work.old (answer_of result) tables.new work.new }
{
    if let Some(f) = p.flaw {
        return Err(Refusal::from(f));
    }
    fit(p.corners, tables.len(), work.len())?;
    build::build(p.corners, tables, &block.twins, &block.owns, &block.lefts);
    checked(p.corners, tables, work)
}

// A text whose corners one block holds.
fn posted(p: Plan<'_>, tables: &mut [u16], work: &mut [u16]) -> Result<u32, Refusal<u64>>
    requires { of Planned p × (p.corners ≤ 2048) }
    ensures { Posts p.entry.start.text.now tables.old work.old (answer_of result) tables.new
        work.new }
{
    let mut block = Block::new();
    let l = block.load(corners::begin(p.start), p.corners);
    if l.count < p.corners {
        return Err(Refusal {
            reason: Reason::Side,
            place: corners::face_of(p.start, l.count) as u64,
        });
    }
    settled(p, tables, work, &block)
}

// n of a face file, or what refuses it.
fn outcome(text: &[u8], tables: &mut [u16], work: &mut [u16]) -> Result<u32, Refusal<u64>>
    ensures { Posts text.now tables.old work.old (answer_of result) tables.new
        work.new }
{
    let p = survey::outlined(text)?;
    if sides::BLOCK < p.corners {
        return Err(too_many(p));
    }
    posted(p, tables, work)
}

// Read a face file into the tables.
pub fn read(text: &[u8], tables: &mut [u16], work: &mut [u16]) -> FacesAnswer
    ensures { (result
        ≡ faces_answer by_dart text.now tables.old work.old)
        × (tables.new ≡ faces_tables by_dart text.now tables.old work.old)
        × (work.new ≡ faces_work by_dart text.now tables.old work.old) }
{
    match outcome(text, tables, work) {
        Ok(darts) => FacesAnswer {
            number: 0,
            place: 0,
            darts,
        },
        Err(r) => FacesAnswer::from(r),
    }
}
