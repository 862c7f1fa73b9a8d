// The whole sheet, from its parts.
ghost use Rattle.std.specs.Prelude.{◌≡◌, ◌≤◌, length, IfOk};
ghost use Rattle.format.specs.Read.{map_ok};
ghost use Rattle.format.specs.Reading.{size_of, claims_from, front_of, reading};
ghost use Rattle.reader.specs.Answers.{counts_of, net_size, told};

use crate::runs::{claims, setting};
use header::head;
use layout::Extent;
use refusals::Refusal;

// NP to TG: the net's size.
#[tactic(auto, unfolding(format::specs::Reading::front_of))]
pub fn front(sheet: &[u8]) -> Result<Extent, Refusal>
    ensures fits { IfOk result (λ e. claims_from (size_of e.places e.transitions) ≤ length sheet.now) }
    ensures value { map_ok (λ e. size_of e.places e.transitions) result ≡ map_ok net_size (front_of sheet.now) }
{
    let extent = head(sheet)?;
    setting(sheet, extent)?;
    Ok(extent)
}

// How many places, transitions and claims there are.
#[tactic(auto, unfolding(format::specs::Reading::reading))]
pub fn measure(sheet: &[u8]) -> Result<(Extent, usize), Refusal>
    ensures { map_ok (λ k. told k.0.places k.0.transitions k.1) result ≡ map_ok counts_of (reading sheet.now) }
{
    let extent = front(sheet)?;
    let claims = claims(sheet, extent)?;
    Ok((extent, claims))
}
