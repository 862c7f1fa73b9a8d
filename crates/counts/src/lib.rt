// How many places, transitions and claims a sheet has: document 01, "What the sheet holds". Each call reads the whole sheet first and passes its refusal on.
#![tactic(auto)]

ghost use Rattle.std.specs.Prelude.{◌≡◌};
ghost use Rattle.format.specs.Read.{map_ok};
ghost use Rattle.format.specs.Reading.{reading};
ghost use Rattle.reader.specs.Answers.{counts_of};
ghost use Rattle.counts.specs.Counted.{how_many_places, how_many_transitions, how_many_claims};

use reader::{Counts, Sheet};
use refusals::Refusal;

// All three.
pub fn counts_of(bytes: &[u8]) -> Result<Counts, Refusal>
    ensures { result ≡ map_ok counts_of (reading bytes.now) }
{
    Ok(Sheet::read(bytes)?.counts())
}

pub fn places_of(bytes: &[u8]) -> Result<usize, Refusal>
    ensures { result ≡ how_many_places (reading bytes.now) }
{
    Ok(Sheet::read(bytes)?.counts().places)
}

pub fn transitions_of(bytes: &[u8]) -> Result<usize, Refusal>
    ensures { result ≡ how_many_transitions (reading bytes.now) }
{
    Ok(Sheet::read(bytes)?.counts().transitions)
}

pub fn claims_of(bytes: &[u8]) -> Result<usize, Refusal>
    ensures { result ≡ how_many_claims (reading bytes.now) }
{
    Ok(Sheet::read(bytes)?.counts().claims)
}
