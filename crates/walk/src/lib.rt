// The walk: document 01, "The walk". The desk walks a net one firing at a time, and each step moves the same marking on.
#![tactic(auto)]

ghost use Rattle.std.specs.Prelude.{◌≡◌};
ghost use Rattle.format.specs.Reading.{reading};
ghost use Rattle.walk.specs.Walk.{begin_of, step_in, step_of};

use firing::fire;
use reader::Sheet;
use refusals::Refusal;
use terms::{Place, Transition};

// The net's places stand first; the numbers beyond them are the lender's own.
#[derive(Clone, Copy, Debug, PartialEq, Eq)]
pub struct Marking {
    pub tokens: [u16; Place::MOST],
}

// What a step answers, and the marking afterwards.
#[derive(Clone, Copy, Debug, PartialEq, Eq)]
pub struct Moved {
    pub answer: Result<(), Refusal>,
    pub marking: Marking,
}

// The sheet's start, with zeros beyond its places. Not inlined, for the reason that `start_of` of sheet gives.
#[inline(never)]
pub fn begin(bytes: &[u8]) -> Result<Marking, Refusal>
    ensures { result ≡ begin_of (reading bytes.now) }
{
    let tokens = Sheet::read(bytes)?.start();
    Ok(Marking { tokens })
}

// The step on a sheet that was read.
pub fn step_in(m: &mut Marking, sheet: &Sheet<'_>, transition: Transition) -> Result<(), Refusal>
    ensures { (result ≡ (step_in sheet.now.setting.net transition m.old).answer) × (m.new ≡ (step_in sheet.now.setting.net transition m.old).marking) }
{
    let arcs = sheet.arcs(transition)?;
    let places = sheet.counts().places;
    fire(&mut m.tokens[..places], &arcs)
}

// The step of a walk: the marking is lent, and moved on. It stays as it was where the step is refused.
pub fn step(m: &mut Marking, bytes: &[u8], transition: Transition) -> Result<(), Refusal>
    ensures { (result ≡ (step_of (reading bytes.now) transition m.old).answer) × (m.new ≡ (step_of (reading bytes.now) transition m.old).marking) }
{
    let sheet = Sheet::read(bytes)?;
    step_in(m, &sheet, transition)
}

// The step by value: the marking as it is afterwards, and as it was where the step is refused.
pub fn step_from(m: Marking, bytes: &[u8], transition: Transition) -> Moved
    ensures { result ≡ step_of (reading bytes.now) transition m }
{
    let mut marking = m;
    let answer = step(&mut marking, bytes, transition);
    Moved { answer, marking }
}
