// Is a claim a whole number of times a reduced form? No divisor is searched for: the number shows at one place.
#![tactic(auto)]

ghost use Rattle.std.specs.Prelude.{◌≡◌, ◌↔◌, IsTrue, map, ℤ, pos, nat_abs, ◌*ℤ◌, ◌≤◌, length};
ghost use Rattle.reduction.specs.Divisors.{space_of};
ghost use Rattle.multiples.specs.Multiples.{IsMultiple, entry, IsPivot, factor_of};

use reduction::Form;

// What a coefficient is read from: the number itself, or the byte of a sheet that spells it.
pub trait AsCoefficient: Copy {
    ghost use Rattle.std.specs.Prelude.{ℤ};

    ghost coefficient: { Self → ℤ };

    fn coefficient(self) -> i8
        ensures { result ≡ coefficient self };
}

impl AsCoefficient for i8 {
    ghost coefficient = { λ k. k };

    fn coefficient(self) -> i8 {
        self
    }
}

impl AsCoefficient for u8 {
    ghost use Rattle.signed.specs.Twos.{twos8};

    ghost coefficient = { twos8 };

    fn coefficient(self) -> i8 {
        self.cast_signed()
    }
}

// A place of a form where it isn't zero, counted from 0 with the constant behind the coefficients, and the size of the number there.
#[derive(Clone, Copy, Debug, PartialEq, Eq)]
pub struct Pivot {
    pub place: usize,
    pub size: u16,
}

// The first place that isn't zero, or the constant's.
pub fn pivot_of(k: &[i8], c: i16) -> Pivot
    ensures { IsPivot (record { coefficients = k.now; constant = c }) result.place result.size }
{
    match k.iter().position(|z| *z != 0) {
        Some(place) => Pivot {
            place,
            size: u16::from(k[place].unsigned_abs()),
        },
        None => Pivot {
            place: k.len(),
            size: c.unsigned_abs(),
        },
    }
}

// The size of the number at a place of a claim.
fn size_in<K: AsCoefficient>(coefficients: &[K], constant: i16, place: usize) -> u16
    requires { place ≤ length coefficients.now }
    ensures { result ≡ nat_abs (entry (record { coefficients = map K.coefficient coefficients.now; constant = constant }) place) }
{
    if place < coefficients.len() {
        u16::from(coefficients[place].coefficient().unsigned_abs())
    } else {
        constant.unsigned_abs()
    }
}

// How often y goes into x; once where y is zero.
fn factor(x: u16, y: u16) -> u16
    ensures { result ≡ factor_of x y }
{
    x.checked_div(y).unwrap_or(1)
}

// Is x exactly d times y? The product fits 32 bits, so nothing of it is lost.
fn is_times(x: i16, y: i16, d: u16) -> bool
    ensures { IsTrue result ↔ (x ≡ y *ℤ pos d) }
{
    i32::from(x) == i32::from(y) * i32::from(d)
}

// Are the coefficients of one row d times those of another?
fn row_is_times<K: AsCoefficient>(row: &[K], k: &[i8], d: u16) -> bool
    requires { length row.now ≡ length k.now }
    ensures { IsTrue result ↔ (map K.coefficient row.now ≡ map (λ (z : ℤ). z *ℤ pos d) k.now) }
{
    row.iter().zip(k).all(|(y, z)| is_times(i16::from(y.coefficient()), i16::from(*z), d))
}

// Is a claim of these coefficients and this constant a number of times this form? The constant is tested first: claims that share their
// coefficients differ there.
pub fn is_multiple<K: AsCoefficient>(
    coefficients: &[K],
    constant: i16,
    form: &Form,
    pivot: Pivot,
) -> bool
    requires few { length coefficients.now ≤ 16 }
    requires pivot { IsPivot (space_of (length coefficients.now) form.now.coefficients form.now.constant) pivot.place pivot.size }
    ensures { IsTrue result ↔ IsMultiple (record { coefficients = map K.coefficient coefficients.now; constant = constant }) (space_of (length coefficients.now) form.now.coefficients form.now.constant) }
{
    let d = factor(size_in(coefficients, constant, pivot.place), pivot.size);
    if d == 0 {
        return false;
    }
    if !is_times(constant, form.constant, d) {
        return false;
    }
    row_is_times(coefficients, &form.coefficients[..coefficients.len()], d)
}
