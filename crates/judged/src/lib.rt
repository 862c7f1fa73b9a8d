// The verdict on a half space, as calls answer it.
#![tactic(auto)]

ghost use Rattle.std.specs.Prelude.{◌≡◌};
ghost use Rattle.judged.specs.Judges.{marking_of};

use terms::{Place, Transition};

// The four verdicts in their order. Broken names the lowest transition that breaks the claim, with a bad marking for it.
#[derive(Clone, Copy, Debug, PartialEq, Eq)]
pub enum Verdict {
    StartOutside,
    TargetInside,
    Broken(Transition, [u16; Place::MOST]),
    Proof,
}

impl Verdict {
    // The bad marking, or zeros where there is none to show.
    pub fn marking(self) -> [u16; Place::MOST]
        ensures { result ≡ marking_of self }
    {
        match self {
            Verdict::Broken(_, marking) => marking,
            Verdict::StartOutside | Verdict::TargetInside | Verdict::Proof => [0u16; Place::MOST],
        }
    }
}
