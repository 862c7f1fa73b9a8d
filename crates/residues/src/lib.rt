// Whether a transition breaks a half space, asked of what is told of the claim's coefficients.
// With coefficients of one sign a transition asks whether some vector's value lies in a window, and a table of remainders answers that.
#![tactic(auto)]

ghost use Rattle.std.specs.Prelude.{◌≡◌, ◌↔◌, IsTrue, List, ℕ, length, ℤ, pos, ◌≤ℤ◌};
ghost use Rattle.nets.specs.Nets.{Transition};
ghost use Rattle.remainders.specs.Sums.{Exact};
ghost use Rattle.tables.specs.Told.{AllUsable, Told, Usable};
ghost use Rattle.residues.specs.Asked.{SomeIn, IsBroken, Moves, Limits};

use remainders::after;
use tables::Values;

// Whether some value that is reached lies in lo .. hi. A multiple of the table's length is one, so at most that many values are looked at.
fn meets(table: &[u16], lo: i32, hi: i32) -> bool
    requires { Usable table.now }
    ensures { (ss : List ℕ) → Exact ss (length table.now) table.now → hi ≤ℤ pos 5000 → (IsTrue result ↔ SomeIn ss lo hi) }
{
    if hi < 0 {
        return false;
    }
    // `as`: both ends are at least 0, and `usize::try_from` would add an error that never comes.
    let first = lo.max(0) as usize;
    let mut r = first % table.len();
    // Not an iterator over the table: v is the value asked for, and r goes round beside it.
    for v in first..hi as usize + 1 {
        if usize::from(table[r]) <= v {
            return true;
        }
        r = after(r, 1, table.len());
    }
    false
}

// Whether a half space with constant c is broken by a transition: a is the value of the weights taken, b that of the weights put.
// With coefficients below zero the window is turned to their sizes.
pub fn breaks(values: Values<'_>, c: i16, a: i32, b: i32) -> bool
    requires usable { AllUsable values }
    requires limits { Limits c a b }
    ensures { (ks : List ℤ) (t : Transition) → Told ks values.entry → Moves ks a b t → IsBroken result (record { coefficients = ks; constant = c }) t }
{
    if a <= b {
        return false;
    }
    let w = i32::from(c);
    match values {
        Values::Zero => false,
        Values::Rising(table) => meets(table, w - a, w - b - 1),
        Values::Falling(table) => meets(table, b + 1 - w, a - w),
        Values::Mixed => true,
    }
}
