// A half space and a transition: does some marking inside lead outside?
#![tactic(auto)]

ghost use Rattle.std.specs.Prelude.{◌≡◌, length};
ghost use Rattle.crossing.specs.Crosses.{Crosses};

mod window; // window.rt: the ends of Theorem 1's window, and the marking beside it

use search::find;
use terms::{Area, Place};
use values::{Arcs, HalfSpace};
use window::{beside, window_of};

// A marking inside whose firing leads outside, if there is one. What the areas hold before does not matter, and what they hold afterwards is
// not said.
pub fn crossing_of(
    half_space: &HalfSpace,
    arcs: &Arcs<'_>,
    marks: &mut [u8; Area::SIZE],
    queue: &mut [u16; Area::SIZE],
) -> Option<[u16; Place::MOST]>
    requires { length arcs.now.taken ≡ length half_space.now.coefficients }
    ensures { Crosses half_space.now arcs.now result }
{
    let window = window_of(half_space, arcs);
    let taken = arcs.taken();
    let x = find(half_space.coefficients(), window, marks, queue)?;
    Some(beside(taken, x))
}
