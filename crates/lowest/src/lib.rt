// The lowest transition that breaks a half space.
#![tactic(auto)]

ghost use Rattle.std.specs.Prelude.{◌≡◌, ◌≤◌, length};
ghost use Rattle.tables.specs.Told.{Told};
ghost use Rattle.residues.specs.Asked.{IsBroken};
ghost use Rattle.lowest.specs.Lowest.{FirstBroken};

use reader::Sheet;
use residues::breaks;
use tables::{Values, table_of};
use terms::Transition;
use values::{Arcs, HalfSpace};

// Does a transition break it? What the coefficients alone say is told.
fn is_broken(half_space: &HalfSpace, values: Values<'_>, arcs: &Arcs<'_>) -> bool
    requires places { length arcs.now.taken ≡ length half_space.now.coefficients }
    requires told { Told half_space.now.coefficients values }
    ensures { IsBroken result half_space.now arcs.now }
{
    let taken = half_space.value_taken(arcs);
    let put = half_space.value_put(arcs);
    breaks(values, half_space.constant(), taken, put)
}

// The lowest transition that breaks it, if one does. What the coefficients alone say is worked out once.
#[tactic(auto, using(crate::proofs::Lowest::within, crate::proofs::Lowest::none_yet, crate::proofs::Lowest::one_more, crate::proofs::Lowest::all_kept, crate::proofs::Lowest::found_so))]
pub fn first_broken(
    half_space: &HalfSpace,
    sheet: &Sheet<'_>,
    table: &mut [u16],
) -> Option<Transition>
    requires places { length half_space.now.coefficients ≡ sheet.now.setting.net.places }
    requires in_bounds { 100 ≤ length table.old }
    ensures { FirstBroken sheet.now.setting.net half_space.now result }
{
    let values = table_of(half_space.coefficients(), table);
    // The number itself is the answer, so no `find` over records.
    for number in 1..=sheet.counts().transitions {
        if is_broken(half_space, values, &sheet.nth_arcs(number)) {
            return Some(Transition(number));
        }
    }
    None
}
