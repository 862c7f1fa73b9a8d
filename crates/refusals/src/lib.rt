// Refusals: document 01, "Numbers that say no".
#![tactic(auto)]

ghost use Rattle.std.specs.Prelude.{◌≡◌};
ghost use Rattle.refusals.specs.Refusals.{number_of, detail_of};

use terms::{Claim, Place, Text, Transition};

// Why a call says no. Up to `TooManyClaims`, and in `AllZero`, it carries the byte place of the fault, counted from 0.
#[derive(Clone, Copy, Debug, PartialEq, Eq)]
pub enum Refusal {
    // The sheet ends within the record that begins there, or within its mark.
    Cut(usize),
    // Another record is due there.
    Mark(usize),
    // The number of places or of transitions is out of range.
    Size(usize),
    Weight(usize),
    Kind(usize),
    Coefficient(usize),
    Constant(usize),
    // A claim's record that is one too many begins there.
    TooManyClaims(usize),
    // No claim follows the target; with the sheet's length.
    NoClaim(usize),
    NotAClaim(Claim),
    NotATransition(Transition),
    // A work area is too small.
    SmallArea,
    // The lowest place that has fewer tokens than are taken.
    NotEnabled(Place),
    // The lowest place that would pass the most tokens.
    TooManyTokens(Place),
    // A list is too long; with its length.
    LongList(usize),
    // Every coefficient of the claim whose record begins there is zero.
    AllZero(usize),
    // The area for a text is too short.
    SmallText,
}

impl Refusal {
    pub fn number(self) -> u8
        ensures { result ≡ number_of self }
    {
        match self {
            Refusal::Cut(_) => 1,
            Refusal::Mark(_) => 2,
            Refusal::Size(_) => 3,
            Refusal::Weight(_) => 4,
            Refusal::Kind(_) => 5,
            Refusal::Coefficient(_) => 6,
            Refusal::Constant(_) => 7,
            Refusal::TooManyClaims(_) => 8,
            Refusal::NoClaim(_) => 9,
            Refusal::NotAClaim(_) => 11,
            Refusal::NotATransition(_) => 12,
            Refusal::SmallArea => 13,
            Refusal::NotEnabled(_) => 15,
            Refusal::TooManyTokens(_) => 16,
            Refusal::LongList(_) => 17,
            Refusal::AllZero(_) => 18,
            Refusal::SmallText => 19,
        }
    }

    // The detail that goes with the number; for a small text the length that is needed.
    pub fn detail(self) -> usize
        ensures { result ≡ detail_of self }
    {
        match self {
            Refusal::Cut(at)
            | Refusal::Mark(at)
            | Refusal::Size(at)
            | Refusal::Weight(at)
            | Refusal::Kind(at)
            | Refusal::Coefficient(at)
            | Refusal::Constant(at)
            | Refusal::TooManyClaims(at)
            | Refusal::AllZero(at) => at,
            Refusal::NoClaim(length) | Refusal::LongList(length) => length,
            Refusal::NotAClaim(claim) => claim.0,
            Refusal::NotATransition(transition) => transition.0,
            Refusal::NotEnabled(place) | Refusal::TooManyTokens(place) => place.0,
            Refusal::SmallArea => 0,
            Refusal::SmallText => Text::SIZE,
        }
    }
}
