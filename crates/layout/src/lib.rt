// Where the records stand, once the numbers of places and transitions are known.
#![tactic(auto)]

ghost use Rattle.std.specs.Prelude.{◌≡◌, ◌+◌, ◌*◌, ◌≤◌};
ghost use Rattle.format.specs.Reading.{size_of, transitions_from, transition_size, target_from, claims_from, claim_size};

// How many places and transitions a net has.
#[derive(Clone, Copy, Debug, PartialEq, Eq)]
pub struct Extent {
    pub places: usize,
    pub transitions: usize,
    ghost most_places: { places ≤ 16 },
    ghost most_transitions: { transitions ≤ 64 },
}

impl Extent {
    // The first byte behind k transitions.
    pub fn behind_transitions(self, k: usize) -> usize
        requires { k ≤ 64 }
        ensures { (result ≡ transitions_from + k * transition_size self.places) × (result ≤ 2180) }
    {
        4 + k * (2 + 2 * self.places)
    }

    pub fn target_from(self) -> usize
        ensures { (result ≡ target_from (size_of self.places self.transitions)) × (result ≤ 2214) }
    {
        self.behind_transitions(self.transitions) + 2 + 2 * self.places
    }

    pub fn claims_from(self) -> usize
        ensures { (result ≡ claims_from (size_of self.places self.transitions)) × (result ≤ 2249) }
    {
        self.target_from() + 3 + 2 * self.places
    }

    // The first byte behind k claims.
    pub fn behind_claims(self, k: usize) -> usize
        requires { k ≤ 32 }
        ensures { (result ≡ claims_from (size_of self.places self.transitions) + k * claim_size self.places) × (result ≤ 2889) }
    {
        self.claims_from() + k * (4 + self.places)
    }
}
