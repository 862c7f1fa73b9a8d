// Which signs the coefficients have, and the smallest of their sizes.
ghost use Rattle.std.specs.Prelude.{◌↔◌, IsTrue};
ghost use Rattle.nets.specs.Verdicts.{SomeAbove, SomeBelow};
ghost use Rattle.remainders.specs.Sums.{sizes, Within};
ghost use Rattle.tables.specs.Smallest.{NotAll0, Smallest};

pub fn some_above(k: &[i8]) -> bool
    ensures { IsTrue result ↔ SomeAbove k.now }
{
    k.iter().any(|z| *z > 0)
}

pub(crate) fn some_below(k: &[i8]) -> bool
    ensures { IsTrue result ↔ SomeBelow k.now }
{
    k.iter().any(|z| *z < 0)
}

// The smallest size but 0.
pub(crate) fn smallest(k: &[i8]) -> usize
    requires { Within (sizes k.now) × NotAll0 (sizes k.now) }
    ensures { Smallest (sizes k.now) result }
{
    let sizes = k.iter().map(|z| z.unsigned_abs());
    usize::from(sizes.filter(|size| *size > 0).min().unwrap())
}
