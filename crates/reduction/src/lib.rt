// The reduced form of a claim, as numbers: document 01, "Half spaces and verdicts".
#![tactic(auto)]

ghost use Rattle.std.specs.Prelude.{◌≡◌, map, ◌≤◌, ℤ, pos, ◌*ℤ◌, length, take};
ghost use Rattle.nets.specs.HalfSpaces.{sixteen};
ghost use Rattle.nets.specs.Reduced.{EachOf, Divides, IsReduced};
ghost use Rattle.reduction.specs.Divisors.{space_of};

pub mod euclid; // euclid.rt: greatest common divisors

use euclid::divisor;
use terms::Place;

#[derive(Clone, Copy, Debug, PartialEq, Eq)]
pub struct Form {
    pub coefficients: [i8; Place::MOST],
    pub constant: i16,
}

// A quotient that leaves no rest, also below zero.
fn exact(z: i16, g: u16) -> i16
    requires { (1 ≤ g) × Divides g z }
    ensures { z ≡ result *ℤ pos g }
{
    // `as`: a quotient of an i16 is one, and `try_from` would add an error that never comes.
    (i32::from(z) / i32::from(g)) as i16
}

// The coefficients, each divided; zeros stand beyond them.
fn row_divided(k: &[i8], g: u16) -> [i8; Place::MOST]
    requires { (length k.now ≤ 16) × (1 ≤ g) × EachOf (Divides g) k.now }
    ensures { (k.now ≡ map (λ (z : ℤ). z *ℤ pos g) (take (length k.now) result)) × (result ≡ sixteen (pos 0) (take (length k.now) result)) }
{
    let mut row = [0; Place::MOST];
    for (p, z) in k.iter().enumerate() {
        // `as`: likewise.
        row[p] = exact(i16::from(*z), g) as i8;
    }
    row
}

// At most sixteen coefficients and the constant, divided by their divisor; where all are zero it is the claim itself.
pub fn reduced(k: &[i8], c: i16) -> Form
    requires { length k.now ≤ 16 }
    ensures { IsReduced (record { coefficients = k.now; constant = c }) (space_of (length k.now) result.coefficients result.constant) × (result.coefficients ≡ sixteen (pos 0) (take (length k.now) result.coefficients)) }
{
    let g = divisor(k, c).max(1);
    Form {
        coefficients: row_divided(k, g),
        constant: exact(c, g),
    }
}
