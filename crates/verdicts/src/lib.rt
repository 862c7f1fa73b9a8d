// The verdict on a claim: start-outside, target-inside, broken, proof. Demand 3 and document 01, "Half spaces and verdicts".
#![tactic(auto)]

ghost use Rattle.std.specs.Prelude.{◌≡◌, length, replicate};
ghost use Rattle.format.specs.Reading.{reading};
ghost use Rattle.judged.specs.Judges.{Judges};
ghost use Rattle.pairs.specs.Pairs.{area_after};
ghost use Rattle.verdicts.specs.Judged.{IsJudged, verdict_check};

use judged::Verdict;
use judging::judge;
use lent::wipe;
use reader::Sheet;
use refusals::Refusal;
use terms::{Area, Claim};
use values::HalfSpace;

// The verdict on a half space in two areas that are wiped after it.
fn settle(
    half_space: &HalfSpace,
    sheet: &Sheet<'_>,
    marks: &mut [u8; Area::SIZE],
    queue: &mut [u16; Area::SIZE],
) -> Verdict
    requires { length half_space.now.coefficients ≡ sheet.now.setting.net.places }
    ensures judges { Judges sheet.now.setting half_space.now result }
    ensures marks_wiped { marks.new ≡ replicate 20000 0 }
    ensures queue_wiped { queue.new ≡ replicate 20000 0 }
{
    let verdict = judge(half_space, sheet, marks, queue);
    wipe(marks, queue);
    verdict
}

// The verdict on a claim.
pub fn verdict_of(
    bytes: &[u8],
    claim: Claim,
    marks: &mut [u8],
    queue: &mut [u16],
) -> Result<Verdict, Refusal>
    ensures judged { IsJudged (reading bytes.now) claim (length marks.old) (length queue.old) result }
    ensures marks_after { marks.new ≡ area_after (verdict_check (reading bytes.now) claim (length marks.old) (length queue.old)) marks.old }
    ensures queue_after { queue.new ≡ area_after (verdict_check (reading bytes.now) claim (length marks.old) (length queue.old)) queue.old }
{
    let sheet = Sheet::read(bytes)?;
    let half_space = sheet.half_space(claim)?;
    if !Area::fit(marks.len(), queue.len()) {
        return Err(Refusal::SmallArea);
    }
    let marks = marks.first_chunk_mut().unwrap();
    let queue = queue.first_chunk_mut().unwrap();
    Ok(settle(&half_space, &sheet, marks, queue))
}
