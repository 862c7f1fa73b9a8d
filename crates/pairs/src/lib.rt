// One claim, one transition: kept or broken, exactly. Document 01, "Half spaces and verdicts".
#![tactic(auto)]

ghost use Rattle.std.specs.Prelude.{◌≡◌, length, replicate};
ghost use Rattle.format.specs.Reading.{reading};
ghost use Rattle.pairs.specs.Pairs.{Says, IsPair, pair_check, area_after};

use crossing::crossing_of;
use lent::wipe;
use reader::Sheet;
use refusals::Refusal;
use terms::{Area, Claim, Place, Transition};
use values::{Arcs, HalfSpace};

// Broken has a bad marking.
#[derive(Clone, Copy, Debug, PartialEq, Eq)]
pub enum Answer {
    Kept,
    Broken([u16; Place::MOST]),
}

// The question in two areas that are wiped after it.
fn ask(
    half_space: &HalfSpace,
    arcs: &Arcs<'_>,
    marks: &mut [u8; Area::SIZE],
    queue: &mut [u16; Area::SIZE],
) -> Answer
    requires { length arcs.now.taken ≡ length half_space.now.coefficients }
    ensures says { Says half_space.now arcs.now result }
    ensures marks_wiped { marks.new ≡ replicate 20000 0 }
    ensures queue_wiped { queue.new ≡ replicate 20000 0 }
{
    let crossing = crossing_of(half_space, arcs, marks, queue);
    wipe(marks, queue);
    match crossing {
        Some(marking) => Answer::Broken(marking),
        None => Answer::Kept,
    }
}

// Does the transition keep the claim? Start and target play no part.
pub fn pair_of(
    bytes: &[u8],
    claim: Claim,
    transition: Transition,
    marks: &mut [u8],
    queue: &mut [u16],
) -> Result<Answer, Refusal>
    ensures pair { IsPair (reading bytes.now) claim transition (length marks.old) (length queue.old) result }
    ensures marks_after { marks.new ≡ area_after (pair_check (reading bytes.now) claim transition (length marks.old) (length queue.old)) marks.old }
    ensures queue_after { queue.new ≡ area_after (pair_check (reading bytes.now) claim transition (length marks.old) (length queue.old)) queue.old }
{
    let sheet = Sheet::read(bytes)?;
    let half_space = sheet.half_space(claim)?;
    let arcs = sheet.arcs(transition)?;
    if !Area::fit(marks.len(), queue.len()) {
        return Err(Refusal::SmallArea);
    }
    let marks = marks.first_chunk_mut().unwrap();
    let queue = queue.first_chunk_mut().unwrap();
    Ok(ask(&half_space, &arcs, marks, queue))
}
