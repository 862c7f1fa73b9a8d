// What depends on a claim's coefficients alone, made once for a claim: which signs they have, and with one sign the table of remainders.
#![tactic(auto)]

ghost use Rattle.std.specs.Prelude.{◌≤◌, length};
ghost use Rattle.remainders.specs.Sums.{sizes, Within};
ghost use Rattle.tables.specs.Smallest.{NotAll0};
ghost use Rattle.tables.specs.Told.{IsTable, Told};

pub mod signs; // signs.rt: which signs the coefficients have, and their smallest size

use remainders::fill;
use signs::{smallest, some_above, some_below};

// The values that a vector can have: only zero; with coefficients of one sign those that the table of remainders tells, all of that sign; any of either sign.
#[derive(Clone, Copy, Debug, PartialEq, Eq)]
pub enum Values<'t> {
    Zero,
    Rising(&'t [u16]),
    Falling(&'t [u16]),
    Mixed,
}

// The table of remainders, which is as long as the smallest size.
fn filled<'t>(k: &[i8], table: &'t mut [u16]) -> &'t [u16]
    requires { (100 ≤ length table.old) × Within (sizes k.now) × NotAll0 (sizes k.now) }
    ensures { IsTable (sizes k.now) result.now }
{
    let table = &mut table[..smallest(k)];
    fill(k, table);
    table
}

// What the coefficients alone say. There is a table only where they have one sign; it is made in what is lent.
pub fn table_of<'t>(k: &[i8], table: &'t mut [u16]) -> Values<'t>
    requires { (100 ≤ length table.old) × Within (sizes k.now) }
    ensures { Told k.now result }
{
    match (some_above(k), some_below(k)) {
        (false, false) => Values::Zero,
        (true, false) => Values::Rising(filled(k, table)),
        (false, true) => Values::Falling(filled(k, table)),
        (true, true) => Values::Mixed,
    }
}
