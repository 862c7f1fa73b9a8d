// The claims of a sheet: document 01, "What the sheet holds" and "Half spaces and verdicts". Each call reads the whole sheet first and passes its refusal on.
#![tactic(auto)]

ghost use Rattle.std.specs.Prelude.{◌≡◌, IfOk};
ghost use Rattle.format.specs.Read.{map_ok};
ghost use Rattle.format.specs.Reading.{reading};
ghost use Rattle.claims.specs.Held.{claim_check, half_space_of};
ghost use Rattle.claims.specs.Part.{IsPart, IsRange, record_at, record_bytes};

use reader::{Sheet, measure};
use refusals::Refusal;
use std::ops::Range;
use terms::{Claim, among};
use values::HalfSpace;

// The coefficients and the constant of a claim.
#[tactic(auto, unfolding(crate::specs::Held::half_space_of))]
pub fn half_space_of(bytes: &[u8], claim: Claim) -> Result<HalfSpace, Refusal>
    ensures { result ≡ half_space_of (reading bytes.now) claim }
{
    let sheet = Sheet::read(bytes)?;
    sheet.half_space(claim)
}

// The refusal of a claim's record, or that there is none.
#[tactic(auto, unfolding(crate::specs::Held::claim_check))]
pub fn claim_check(bytes: &[u8], claim: Claim) -> Result<(), Refusal>
    ensures { result ≡ claim_check (reading bytes.now) claim }
{
    let sheet = Sheet::read(bytes)?;
    sheet.half_space(claim)?;
    Ok(())
}

// Where the record of a claim stands, its mark included.
#[tactic(auto, unfolding(crate::specs::Held::claim_check))]
pub fn record_range(bytes: &[u8], claim: Claim) -> Result<Range<usize>, Refusal>
    ensures range { IfOk result (λ range. IsRange range bytes.now (record_at (reading bytes.now) claim) (record_bytes (reading bytes.now) claim)) }
    ensures check { map_ok (λ _. tt) result ≡ claim_check (reading bytes.now) claim }
{
    let (extent, claims) = measure(bytes)?;
    if !among(claim.0, claims) {
        return Err(Refusal::NotAClaim(claim));
    }
    let at = extent.behind_claims(claim.0 - 1);
    Ok(at..at + 4 + extent.places)
}

// The record of a claim, its mark included, as a part of the caller's own sheet; of length 0 at its start where `claim_check` refuses.
pub fn claim_record(bytes: &[u8], claim: Claim) -> &[u8]
    ensures { IsPart result bytes.entry (record_at (reading bytes.now) claim) (record_bytes (reading bytes.now) claim) }
{
    match record_range(bytes, claim) {
        Ok(range) => &bytes[range],
        Err(_) => &bytes[..0],
    }
}
