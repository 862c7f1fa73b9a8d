// The verdict on a half space, against the net, the start and the target of a sheet.
#![tactic(auto)]

ghost use Rattle.std.specs.Prelude.{◌≡◌, length};
ghost use Rattle.judged.specs.Judges.{Judges};

use crossing::crossing_of;
use inside::{is_inside, target_inside};
use judged::Verdict;
use lowest::first_broken;
use reader::Sheet;
use terms::Area;
use values::HalfSpace;

// The first that holds: the start is outside, some target marking is inside, some transition breaks it, and none of these. What the areas
// hold before does not matter, and what they hold afterwards is not said.
#[tactic(auto, unfolding(nets::specs::Nets::IsTransition), using(crate::proofs::Answered::found))]
pub fn judge(
    half_space: &HalfSpace,
    sheet: &Sheet<'_>,
    marks: &mut [u8; Area::SIZE],
    queue: &mut [u16; Area::SIZE],
) -> Verdict
    requires { length half_space.now.coefficients ≡ sheet.now.setting.net.places }
    ensures { Judges sheet.now.setting half_space.now result }
{
    let coefficients = half_space.coefficients();
    let constant = half_space.constant();
    let start = sheet.start();
    if !is_inside(coefficients, constant, &start[..coefficients.len()]) {
        return Verdict::StartOutside;
    }
    if target_inside(coefficients, constant, sheet.target()) {
        return Verdict::TargetInside;
    }
    let Some(transition) = first_broken(half_space, sheet, queue) else {
        return Verdict::Proof;
    };
    let arcs = sheet.nth_arcs(transition.0);
    let marking = crossing_of(half_space, &arcs, marks, queue).unwrap();
    Verdict::Broken(transition, marking)
}
