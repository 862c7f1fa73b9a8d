// What is counted, with its limits: places, transitions and claims, and the entries of lent areas.
#![tactic(auto)]

ghost use Rattle.std.specs.Prelude.{◌≡◌};
ghost use Rattle.terms.specs.Limits.{among as is_among, areas_fit};

// Places, transitions and claims are counted apart, each from 1: none is ever taken for another.
#[derive(Clone, Copy, Debug, PartialEq, Eq)]
pub struct Place(pub usize);

#[derive(Clone, Copy, Debug, PartialEq, Eq)]
pub struct Transition(pub usize);

#[derive(Clone, Copy, Debug, PartialEq, Eq)]
pub struct Claim(pub usize);

impl Place {
    pub const MOST: usize = 16;

    // The tokens that a place of a sheet or of a walk holds at most.
    pub const TOKENS: u16 = 65535;
}

impl Transition {
    pub const MOST: usize = 64;
}

impl Claim {
    pub const MOST: usize = 32;
}

// Is `i` one of `count` numbers that are counted from 1?
pub fn among(i: usize, count: usize) -> bool
    ensures { result ≡ is_among i count }
{
    (1..=count).contains(&i)
}

// A work area that judging borrows.
#[derive(Clone, Copy, Debug, PartialEq, Eq)]
pub struct Area {}

impl Area {
    pub const SIZE: usize = 20000;

    // Are both areas long enough?
    pub fn fit(marks: usize, queue: usize) -> bool
        ensures { result ≡ areas_fit marks queue }
    {
        Area::SIZE <= marks && Area::SIZE <= queue
    }
}

// The area into which a listing is written: the longest has fewer bytes.
#[derive(Clone, Copy, Debug, PartialEq, Eq)]
pub struct Text {}

impl Text {
    pub const SIZE: usize = 4096;
}

// A list of transitions that one call fires.
#[derive(Clone, Copy, Debug, PartialEq, Eq)]
pub struct Firings {}

impl Firings {
    pub const MOST: usize = 64;
}
