// Sixteen numbers of one kind, zero beyond place n.
#![tactic(auto)]

ghost use Rattle.std.specs.Prelude.{◌≡◌, map, ◌+◌, ◌*◌, ◌≤◌, pos, length};
ghost use Rattle.signed.specs.Twos.{twos8};
ghost use Rattle.nets.specs.HalfSpaces.{sixteen};
ghost use Rattle.format.specs.Reading.{bytes, word, words, claim_in};

use amounts::{Coefficient, Constant};
use terms::Place;

// Numbers of one byte.
pub fn sixteen(row: &[u8]) -> [u8; Place::MOST]
    requires { length row.now ≤ 16 }
    ensures { result ≡ sixteen 0 row.now }
{
    let mut sixteen = [0; Place::MOST];
    sixteen[..row.len()].copy_from_slice(row);
    sixteen
}

// A number of two bytes, the low byte first.
pub fn two_bytes(s: &[u8], at: usize) -> u16
    requires { at + 2 ≤ length s.now }
    ensures { result ≡ word s.now at }
{
    u16::from_le_bytes([s[at], s[at + 1]])
}

fn fill_tokens(row: &mut [u16], s: &[u8], at: usize)
    requires { at + 2 * length row.old ≤ length s.now }
    ensures { row.new ≡ words s.now at (length row.old) }
{
    for (p, tokens) in row.iter_mut().enumerate() {
        *tokens = two_bytes(s, at + 2 * p);
    }
}

pub fn tokens_from(s: &[u8], at: usize, n: usize) -> [u16; Place::MOST]
    requires { (n ≤ 16) × (at + 2 * n ≤ length s.now) }
    ensures { result ≡ sixteen 0 (words s.now at n) }
{
    let mut row = [0; Place::MOST];
    fill_tokens(&mut row[..n], s, at);
    row
}

fn fill_coefficients(row: &mut [i8], bytes: &[u8])
    requires { length bytes.now ≡ length row.old }
    ensures { row.new ≡ map twos8 bytes.now }
{
    for (p, k) in row.iter_mut().enumerate() {
        *k = Coefficient::from(bytes[p]).0;
    }
}

fn coefficients_from(s: &[u8], at: usize, n: usize) -> [i8; Place::MOST]
    requires { (n ≤ 16) × (at + n ≤ length s.now) }
    ensures { result ≡ sixteen (pos 0) (map twos8 (bytes s.now at n)) }
{
    let mut row = [0; Place::MOST];
    fill_coefficients(&mut row[..n], &s[at..at + n]);
    row
}

// A claim's numbers: sixteen coefficients, zero beyond place n, and the constant.
#[derive(Clone, Copy, Debug, PartialEq, Eq)]
pub struct Numbers {
    pub coefficients: [i8; Place::MOST],
    pub constant: i16,
}

// The numbers of the claim whose record starts at a byte.
pub fn numbers_at(s: &[u8], at: usize, n: usize) -> Numbers
    requires { (n ≤ 16) × (at + 4 + n ≤ length s.now) }
    ensures coefficients_value { result.coefficients ≡ sixteen (pos 0) (claim_in s.now n at).coefficients }
    ensures constant_value { result.constant ≡ (claim_in s.now n at).constant }
{
    Numbers {
        coefficients: coefficients_from(s, at + 2, n),
        constant: Constant::from([s[at + 2 + n], s[at + 3 + n]]).0,
    }
}
