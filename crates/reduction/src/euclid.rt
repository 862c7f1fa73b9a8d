// Greatest common divisors, by Euclid's rule: document 01, "Half spaces and verdicts".
ghost use Rattle.std.specs.Int.{IsGcd};
ghost use Rattle.reduction.specs.Divisors.{IsCommon, IsDivisorOf};

fn gcd(a: u16, b: u16) -> u16
    ensures { IsGcd a b result }
{
    if b == 0 { a } else { gcd(b, a % b) }
}

// The divisor of the coefficients.
fn row_divisor(k: &[i8]) -> u16
    ensures { IsCommon k.now result }
{
    let mut g = 0;
    for z in k {
        g = gcd(u16::from(z.unsigned_abs()), g);
    }
    g
}

// The divisor of a claim: of its coefficients, then of that and the constant; 0 where all are zero.
pub(crate) fn divisor(k: &[i8], c: i16) -> u16
    ensures { IsDivisorOf (record { coefficients = k.now; constant = c }) result }
{
    gcd(c.unsigned_abs(), row_divisor(k))
}
