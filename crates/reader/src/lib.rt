// The reader of sheets: document 01, "What the sheet holds" and "Numbers that say no".
#![tactic(auto)]

mod runs; // runs.rt: the records of a sheet, from its head on
mod scan; // scan.rt: the whole sheet, from its parts

use amounts::{Constant, Kind};
use layout::Extent;
use refusals::Refusal;
use rows::{numbers_at, tokens_from};
pub use scan::{front, measure};
use std::marker::Model;
use terms::{Claim, Place, Transition, among};
use values::{Arcs, HalfSpace};

// How many places, transitions and claims a sheet has.
#[derive(Clone, Copy, Debug, PartialEq, Eq)]
pub struct Counts {
    pub places: usize,
    pub transitions: usize,
    pub claims: usize,
}

// The first tokens are those of the places, and the others are zero.
#[derive(Clone, Copy, Debug, PartialEq, Eq)]
pub struct Target {
    pub kind: Kind,
    pub tokens: [u16; Place::MOST],
}

// A sound sheet in bytes that are lent, made by `read` alone. Callers see its contents.
#[derive(Clone, Drop)]
pub struct Sheet<'a> {
    bytes: &'a [u8],
    extent: Extent,
    claims: usize,
}

impl<'a> Model for Sheet<'a> {
    ghost use Rattle.format.specs.Contents.{Contents};
    ghost use Rattle.reader.specs.Known.{contents_of, IsRead};

    ghost Value = { Contents };

    ghost view = { λ s. contents_of s.bytes.now };

    ghost invariant = { λ s. IsRead s.bytes.now (record { places = s.extent.places; transitions = s.extent.transitions; claims = s.claims }) };
}

impl<'a> Sheet<'a> {
    ghost use Rattle.std.specs.Prelude.{◌≡◌, ◌≤◌, length, map, IfOk};
    ghost use Rattle.signed.specs.Twos.{twos8};
    ghost use Rattle.nets.specs.Nets.{transition};
    ghost use Rattle.nets.specs.HalfSpaces.{sixteen};
    ghost use Rattle.format.specs.Contents.{half_space, claim};
    ghost use Rattle.format.specs.Formed.{Formed};
    ghost use Rattle.format.specs.Reading.{reading};
    ghost use Rattle.reader.specs.Answers.{counts_of};
    ghost use Rattle.reader.specs.Numbered.{claim_numbered, transition_numbered};
    ghost use Rattle.reader.specs.Targets.{target_shown};

    // Reads a sheet, left to right and once: what it holds, or the refusal of its first fault.
    pub fn read(bytes: &'a [u8]) -> Result<Sheet<'a>, Refusal>
        ensures { result ≡ reading bytes.now }
    {
        let (extent, claims) = measure(bytes)?;
        Ok(Sheet {
            bytes,
            extent,
            claims,
        })
    }

    // And all that it holds is within the limits.
    pub fn counts(&self) -> Counts
        ensures value { result ≡ counts_of self.now }
        ensures formed { Formed self.now }
    {
        Counts {
            places: self.extent.places,
            transitions: self.extent.transitions,
            claims: self.claims,
        }
    }

    // The start, zero beyond the places.
    pub fn start(&self) -> [u16; Place::MOST]
        ensures { result ≡ sixteen 0 self.now.setting.start }
    {
        let at = self.extent.behind_transitions(self.extent.transitions);
        tokens_from(self.bytes, at + 2, self.extent.places)
    }

    pub fn target(&self) -> Target
        ensures value { result ≡ target_shown self.now.setting.target }
        ensures places { length self.now.setting.target.tokens ≡ self.now.setting.net.places }
    {
        let at = self.extent.target_from();
        Target {
            kind: Kind::from(self.bytes[at + 2]),
            tokens: tokens_from(self.bytes, at + 3, self.extent.places),
        }
    }

    // A claim is a half space.
    pub fn half_space(&self, claim: Claim) -> Result<HalfSpace, Refusal>
        ensures value { result ≡ claim_numbered self.now claim }
        ensures places { IfOk result (λ h. length h.coefficients ≡ self.now.setting.net.places) }
    {
        if among(claim.0, self.claims) {
            Ok(self.nth_half_space(claim.0))
        } else {
            Err(Refusal::NotAClaim(claim))
        }
    }

    // The same, where the number is known to be a claim's.
    pub fn nth_half_space(&self, number: usize) -> HalfSpace
        requires { (1 ≤ number) × (number ≤ length self.now.claims) }
        ensures value { result ≡ half_space (claim self.now number) }
        ensures places { length result.coefficients ≡ self.now.setting.net.places }
    {
        let at = self.extent.behind_claims(number - 1);
        let numbers = numbers_at(self.bytes, at, self.extent.places);
        HalfSpace::of_sixteen(numbers.coefficients, self.extent.places, numbers.constant)
    }

    // The bytes that spell a claim's coefficients, as they stand in the sheet, where the number is known to be a claim's.
    pub fn nth_row(&self, number: usize) -> &'a [u8]
        requires { (1 ≤ number) × (number ≤ length self.now.claims) }
        ensures value { map twos8 result.now ≡ (half_space (claim self.now number)).coefficients }
        ensures places { length result.now ≡ self.now.setting.net.places }
    {
        let at = self.extent.behind_claims(number - 1);
        &self.bytes[at + 2..at + 2 + self.extent.places]
    }

    // A claim's constant, where the number is known to be a claim's.
    pub fn nth_constant(&self, number: usize) -> i16
        requires { (1 ≤ number) × (number ≤ length self.now.claims) }
        ensures { result ≡ (half_space (claim self.now number)).constant }
    {
        let at = self.extent.behind_claims(number - 1);
        let low = at + 2 + self.extent.places;
        Constant::from([self.bytes[low], self.bytes[low + 1]]).0
    }

    // The weights of a transition.
    pub fn arcs(&self, transition: Transition) -> Result<Arcs<'a>, Refusal>
        ensures value { result ≡ transition_numbered self.now transition }
        ensures places { IfOk result (λ t. length t.taken ≡ self.now.setting.net.places) }
    {
        if among(transition.0, self.extent.transitions) {
            Ok(self.nth_arcs(transition.0))
        } else {
            Err(Refusal::NotATransition(transition))
        }
    }

    // The same, where the number is known to be a transition's.
    pub fn nth_arcs(&self, number: usize) -> Arcs<'a>
        requires { (1 ≤ number) × (number ≤ length self.now.setting.net.transitions) }
        ensures value { result ≡ transition self.now.setting.net number }
        ensures places { length result.taken ≡ self.now.setting.net.places }
    {
        let n = self.extent.places;
        let from = self.extent.behind_transitions(number - 1) + 2;
        let taken = &self.bytes[from..from + n];
        let put = &self.bytes[from + n..from + n + n];
        Arcs::new(taken, put)
    }
}
