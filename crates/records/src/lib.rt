// One record of each kind but NP, its fields in order: document 01, "What the sheet holds".
#![tactic(auto)]

ghost use Rattle.std.specs.Prelude.{◌≡◌, ◌+◌, ◌*◌, ◌≤◌, length, IfOk};
ghost use Rattle.format.specs.Reading.{transition_at, start_at, target_at, claim_at};
ghost use Rattle.format.specs.Checked.{checked};

use amounts::Kind;
use fields::{coefficients, constant, nonzero, weights};
use marks::{Cursor, Mark};
use refusals::Refusal;

// TR: the weights taken and put.
#[tactic(auto, unfolding(format::specs::Reading::transition_at))]
pub fn transition(cursor: Cursor<'_>, places: usize) -> Result<(), Refusal>
    requires { places ≤ 16 }
    ensures fits { IfOk result (λ _. cursor.entry.at + (2 + 2 * places) ≤ length cursor.entry.sheet.now) }
    ensures value { result ≡ checked (transition_at cursor.entry.sheet.now places cursor.entry.at) }
{
    cursor.opened(Mark::TR, 2 + 2 * places)?;
    weights(cursor.sheet, cursor.at + 2, 2 * places)
}

// MK: the start.
#[tactic(auto, unfolding(format::specs::Reading::start_at))]
pub fn start(cursor: Cursor<'_>, places: usize) -> Result<(), Refusal>
    requires { places ≤ 16 }
    ensures fits { IfOk result (λ _. cursor.entry.at + (2 + 2 * places) ≤ length cursor.entry.sheet.now) }
    ensures value { result ≡ checked (start_at cursor.entry.sheet.now places cursor.entry.at) }
{
    cursor.opened(Mark::MK, 2 + 2 * places)
}

// TG: the kind and the target.
#[tactic(auto, unfolding(format::specs::Reading::target_at))]
pub fn target(cursor: Cursor<'_>, places: usize) -> Result<(), Refusal>
    requires { places ≤ 16 }
    ensures fits { IfOk result (λ _. cursor.entry.at + (3 + 2 * places) ≤ length cursor.entry.sheet.now) }
    ensures value { result ≡ checked (target_at cursor.entry.sheet.now places cursor.entry.at) }
{
    cursor.opened(Mark::TG, 3 + 2 * places)?;
    if Kind::MOST < cursor.sheet[cursor.at + 2] {
        return Err(Refusal::Kind(cursor.at + 2));
    }
    Ok(())
}

// HS, behind its mark: the coefficients, then the constant, and last that not all coefficients are zero. How many claims came before plays no part here.
#[tactic(auto, unfolding(format::specs::Reading::claim_at))]
pub fn claim(cursor: Cursor<'_>, places: usize) -> Result<(), Refusal>
    requires { places ≤ 16 }
    ensures fits { IfOk result (λ _. cursor.entry.at + (4 + places) ≤ length cursor.entry.sheet.now) }
    ensures value { result ≡ checked (claim_at cursor.entry.sheet.now places cursor.entry.at) }
{
    cursor.whole(4 + places)?;
    let from = cursor.at + 2;
    coefficients(cursor.sheet, from, places)?;
    constant(cursor.sheet, from + places)?;
    nonzero(cursor.sheet, from, places, cursor.at)
}
