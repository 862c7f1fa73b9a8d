// The records of a sheet, from its head on.
ghost use Rattle.std.specs.Prelude.{◌≡◌, ◌+◌, ◌<◌, ◌≤◌, length, IfOk};
ghost use Rattle.format.specs.Reading.{size_of, transitions_at, transitions_from, start_from, setting_of, claim_due, claims_of, claims_from};
ghost use Rattle.format.specs.Read.{map_ok};
ghost use Rattle.format.specs.Checked.{checked};

use layout::Extent;
use marks::{Cursor, Mark};
use records::{claim, start, target, transition};
use refusals::Refusal;
use terms::Claim;

// The transitions' records.
fn transitions(sheet: &[u8], extent: Extent) -> Result<(), Refusal>
    requires { 4 ≤ length sheet.now }
    ensures fits { IfOk result (λ _. start_from (size_of extent.places extent.transitions) ≤ length sheet.now) }
    ensures value { result ≡ checked (transitions_at sheet.now extent.places transitions_from extent.transitions) }
{
    // Not an iterator: k is no index, but says where a record begins.
    for k in 0..extent.transitions {
        let at = extent.behind_transitions(k);
        transition(Cursor { sheet, at }, extent.places)?;
    }
    Ok(())
}

// TR to TG.
#[tactic(auto, unfolding(format::specs::Reading::setting_of))]
pub fn setting(sheet: &[u8], extent: Extent) -> Result<(), Refusal>
    requires { 4 ≤ length sheet.now }
    ensures fits { IfOk result (λ _. claims_from (size_of extent.places extent.transitions) ≤ length sheet.now) }
    ensures value { result ≡ checked (setting_of sheet.now (size_of extent.places extent.transitions)) }
{
    transitions(sheet, extent)?;
    let at = extent.behind_transitions(extent.transitions);
    start(Cursor { sheet, at }, extent.places)?;
    let at = extent.target_from();
    target(Cursor { sheet, at }, extent.places)
}

// A claim's record where one is due, or 8 where no more may come.
#[tactic(auto, unfolding(format::specs::Reading::claim_due))]
fn claim_due(cursor: Cursor<'_>, places: usize, more: usize) -> Result<(), Refusal>
    requires { places ≤ 16 }
    ensures fits { IfOk result (λ _. (0 < more) × (cursor.entry.at + (4 + places) ≤ length cursor.entry.sheet.now)) }
    ensures value { result ≡ checked (claim_due cursor.entry.sheet.now places cursor.entry.at more) }
{
    cursor.marked(Mark::HS)?;
    if more == 0 {
        return Err(Refusal::TooManyClaims(cursor.at));
    }
    claim(cursor, places)
}

// The claims' records, to the sheet's end: how many there are.
pub fn claims(sheet: &[u8], extent: Extent) -> Result<usize, Refusal>
    requires { claims_from (size_of extent.places extent.transitions) ≤ length sheet.now }
    ensures { result ≡ map_ok length (claims_of sheet.now (size_of extent.places extent.transitions)) }
{
    let mut at = extent.claims_from();
    if sheet.len() <= at {
        return Err(Refusal::NoClaim(sheet.len()));
    }
    let mut count = 0;
    // Not `chunks`: a record that is cut has its refusal, and so has the 33rd.
    while at < sheet.len() {
        claim_due(Cursor { sheet, at }, extent.places, Claim::MOST - count)?;
        at += 4 + extent.places;
        count += 1;
    }
    Ok(count)
}
