// The fields of a record, of one kind each, within their limits.
#![tactic(auto)]

ghost use Rattle.std.specs.Prelude.{◌≡◌, map, ◌+◌, ◌≤◌, length, not, ◌==◌};
ghost use Rattle.std.specs.List.{position, list_any};
ghost use Rattle.signed.specs.Twos.{twos8};
ghost use Rattle.terms.specs.Limits.{weight_fits, coefficient_fits, constant_fits};
ghost use Rattle.refusals.specs.declared.Refusal.TheVariants as refused;
ghost use Rattle.format.specs.Contents.{some_nonzero};
ghost use Rattle.format.specs.Read.{need};
ghost use Rattle.format.specs.Reading.{each_fits, signed_word, bytes};

use amounts::{Coefficient, Constant, Weight};
use refusals::Refusal;

// Where the first stands that is no weight.
fn no_weight(row: &[u8]) -> Option<usize>
    ensures { result ≡ position (λ b. not (weight_fits b)) row.now }
{
    row.iter().position(|byte| !Weight::from(*byte).fits())
}

// Where the first stands that is no coefficient. A trait over both kinds of field would be longer than these two lines.
fn no_coefficient(row: &[u8]) -> Option<usize>
    ensures { result ≡ position (λ b. not (coefficient_fits (twos8 b))) row.now }
{
    row.iter().position(|byte| !Coefficient::from(*byte).fits())
}

fn some_other_than_zero(row: &[u8]) -> bool
    ensures { result ≡ list_any (λ b. not (b == 0)) row.now }
{
    row.iter().any(|byte| *byte != 0)
}

// So many weights, from a byte on: the first that does not fit is refused.
pub fn weights(s: &[u8], from: usize, count: usize) -> Result<(), Refusal>
    requires { from + count ≤ length s.now }
    ensures { result ≡ each_fits weight_fits refused.Weight s.now from count }
{
    match no_weight(&s[from..from + count]) {
        Some(i) => Err(Refusal::Weight(from + i)),
        None => Ok(()),
    }
}

pub fn coefficients(s: &[u8], from: usize, count: usize) -> Result<(), Refusal>
    requires { from + count ≤ length s.now }
    ensures { result ≡ each_fits (λ b. coefficient_fits (twos8 b)) refused.Coefficient s.now from count }
{
    match no_coefficient(&s[from..from + count]) {
        Some(i) => Err(Refusal::Coefficient(from + i)),
        None => Ok(()),
    }
}

pub fn constant(s: &[u8], at: usize) -> Result<(), Refusal>
    requires { at + 2 ≤ length s.now }
    ensures { result ≡ need (constant_fits (signed_word s.now at)) (refused.Constant at) }
{
    if Constant::from([s[at], s[at + 1]]).fits() {
        Ok(())
    } else {
        Err(Refusal::Constant(at))
    }
}

// Is one of so many coefficients, from a byte on, other than zero? A record of zeros is refused at its first byte.
pub fn nonzero(s: &[u8], from: usize, count: usize, first: usize) -> Result<(), Refusal>
    requires { from + count ≤ length s.now }
    ensures { result ≡ need (some_nonzero (map twos8 (bytes s.now from count))) (refused.AllZero first) }
{
    if some_other_than_zero(&s[from..from + count]) {
        Ok(())
    } else {
        Err(Refusal::AllZero(first))
    }
}
