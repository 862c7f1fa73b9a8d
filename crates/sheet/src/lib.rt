// The net, the start and the target of a sheet: document 01, "What the sheet holds". Each call reads the whole sheet first and passes its refusal on.
#![tactic(auto)]

ghost use Rattle.std.specs.Prelude.{◌≡◌};
ghost use Rattle.format.specs.Reading.{reading};
ghost use Rattle.sheet.specs.Held.{weights_of, start_of, target_of};

use reader::{Sheet, Target};
use refusals::Refusal;
use rows::sixteen;
use terms::{Place, Transition};

// The first weights are those of the places, and the others are zero.
#[derive(Clone, Copy, Debug, PartialEq, Eq)]
pub struct Weights {
    pub taken: [u8; Place::MOST],
    pub put: [u8; Place::MOST],
}

// The weights that a transition takes and puts.
#[tactic(auto, unfolding(crate::specs::Held::weights_of))]
pub fn weights_of(bytes: &[u8], transition: Transition) -> Result<Weights, Refusal>
    ensures { result ≡ weights_of (reading bytes.now) transition }
{
    let sheet = Sheet::read(bytes)?;
    let arcs = sheet.arcs(transition)?;
    Ok(Weights {
        taken: sixteen(arcs.taken()),
        put: sixteen(arcs.put()),
    })
}

// Not inlined, so that the sixteen numbers are handed on whole; inlined they are taken apart and put together again, a fifth of a small sheet's call.
#[inline(never)]
pub fn start_of(bytes: &[u8]) -> Result<[u16; Place::MOST], Refusal>
    ensures { result ≡ start_of (reading bytes.now) }
{
    Ok(Sheet::read(bytes)?.start())
}

pub fn target_of(bytes: &[u8]) -> Result<Target, Refusal>
    ensures { result ≡ target_of (reading bytes.now) }
{
    Ok(Sheet::read(bytes)?.target())
}
