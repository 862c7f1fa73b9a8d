// NP, the record that opens a sheet: how many places and transitions there are.
#![tactic(auto)]

ghost use Rattle.std.specs.Prelude.{◌≡◌, ◌≤◌, length, IfOk};
ghost use Rattle.format.specs.Read.{map_ok};
ghost use Rattle.format.specs.Reading.{size_of, head_of};

use layout::Extent;
use marks::{Cursor, Mark};
use refusals::Refusal;
use terms::{Place, Transition, among};

// The numbers of places and transitions, each within its limit.
#[tactic(auto, unfolding(format::specs::Reading::head_of))]
pub fn head(sheet: &[u8]) -> Result<Extent, Refusal>
    ensures whole { IfOk result (λ _. 4 ≤ length sheet.now) }
    ensures value { map_ok (λ e. size_of e.places e.transitions) result ≡ head_of sheet.now }
{
    Cursor { sheet, at: 0 }.opened(Mark::NP, 4)?;
    let places = usize::from(sheet[2]);
    let transitions = usize::from(sheet[3]);
    if !among(places, Place::MOST) {
        return Err(Refusal::Size(2));
    }
    if Transition::MOST < transitions {
        return Err(Refusal::Size(3));
    }
    Ok(Extent {
        places,
        transitions,
    })
}
