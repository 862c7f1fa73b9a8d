// What stands in a sheet's fields, with its limits: weights, kinds, coefficients and constants.
#![tactic(auto)]

ghost use Rattle.std.specs.Prelude.{◌≡◌};
ghost use Rattle.terms.specs.Limits.{weight_fits, coefficient_fits, constant_fits};

// A weight taken or put.
#[derive(Clone, Copy, Debug, PartialEq, Eq)]
pub struct Weight(pub u8);

impl Weight {
    pub const MOST: u8 = 9;

    pub fn fits(self) -> bool
        ensures { result ≡ weight_fits self.0 }
    {
        self.0 <= Weight::MOST
    }
}

impl From<u8> for Weight {
    ghost from_gives = { λ b w. w.0 ≡ b };

    fn from(byte: u8) -> Weight {
        Weight(byte)
    }
}

// Kind 0 is one exact marking; kind 1 is every marking at or above it in each place.
#[derive(Clone, Copy, Debug, PartialEq, Eq)]
pub enum Kind {
    Exact,
    AtOrAbove,
}

impl Kind {
    pub const MOST: u8 = 1;
}

impl From<u8> for Kind {
    ghost use Rattle.amounts.specs.Kinds.{kind_of_byte};

    ghost from_gives = { λ b kind. kind ≡ kind_of_byte b };

    fn from(byte: u8) -> Kind {
        match byte {
            0 => Kind::Exact,
            _ => Kind::AtOrAbove,
        }
    }
}

// A coefficient of a half space, read from its byte as two's complement.
#[derive(Clone, Copy, Debug, PartialEq, Eq)]
pub struct Coefficient(pub i8);

impl Coefficient {
    pub const LEAST: i8 = -100;

    pub const MOST: i8 = 100;

    pub fn fits(self) -> bool
        ensures { result ≡ coefficient_fits self.0 }
    {
        Coefficient::LEAST <= self.0 && self.0 <= Coefficient::MOST
    }
}

impl From<u8> for Coefficient {
    ghost use Rattle.signed.specs.Twos.{twos8};

    ghost from_gives = { λ b k. k.0 ≡ twos8 b };

    fn from(byte: u8) -> Coefficient {
        Coefficient(byte.cast_signed())
    }
}

// The constant of a half space, read from its two bytes as two's complement, the low byte first. Its `fits` is one line over its own
// limits, as a coefficient's is: a trait would say that line in each impl, and its law besides.
#[derive(Clone, Copy, Debug, PartialEq, Eq)]
pub struct Constant(pub i16);

impl Constant {
    pub const LEAST: i16 = -5000;

    pub const MOST: i16 = 5000;

    pub fn fits(self) -> bool
        ensures { result ≡ constant_fits self.0 }
    {
        Constant::LEAST <= self.0 && self.0 <= Constant::MOST
    }
}

impl From<[u8; 2]> for Constant {
    ghost use Rattle.std.specs.Prelude.{slice_index};
    ghost use Rattle.signed.specs.Twos.{twos16};

    ghost from_gives = { λ bs c. c.0 ≡ twos16 (slice_index bs 0) (slice_index bs 1) };

    fn from(bytes: [u8; 2]) -> Constant {
        Constant(i16::from_le_bytes(bytes))
    }
}
