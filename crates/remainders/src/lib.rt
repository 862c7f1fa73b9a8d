// The table of remainders: entry r is the least value with remainder r that sums of the sizes reach. Its length a is one of the sizes.
#![tactic(auto)]

ghost use Rattle.std.specs.Prelude.{◌≡◌, List, ◌∷◌, ℕ, ◌+◌, ◌%◌, ◌≤◌, ◌<◌, length, get_or};
ghost use Rattle.remainders.specs.Sums.{sizes};
ghost use Rattle.remainders.specs.Steps.{Blank, Closed, Ready, Swept, Tabled};

use amounts::Constant;

// One more than the largest constant: no window asks for a value of that size. `as`: a constant cannot call `from`.
const FAR: u16 = Constant::MOST as u16 + 1;

// The remainder s behind r.
pub fn after(r: usize, s: usize, a: usize) -> usize
    requires { (r < a) × (s ≤ a) × (a ≤ 100) }
    ensures { result ≡ (r + s) % a }
{
    let t = r + s;
    if t < a { t } else { t - a }
}

// The bounds of a table's length stay clauses: round the `&mut` in a struct each function would also have to promise that it holds the same one still.

// No size is taken in: 0 alone is reached.
fn blank(table: &mut [u16])
    requires { (0 < length table.old) × (length table.old ≤ 100) }
    ensures { Blank table.new }
{
    table.fill(FAR);
    table[0] = 0;
}

// From a start, k more and k more, as long as that lowers an entry. An entry that falls is gone on from, so that its own step is closed again.
fn chain(table: &mut [u16], k: usize, s: usize, start: usize)
    requires ready { Ready k (length table.old) }
    requires s_value { (s ≡ k % length table.old) × (start < length table.old) }
    requires by_index { (c : ℕ) → c < start → Closed (length table.old) k table.old c }
    ensures { Swept (length table.old) k (start + 1) table.old table.new }
{
    let a = table.len();
    let mut v = usize::from(table[start]) + k;
    let mut next = after(start, s, a);
    // Not a `for`: the entries say where the chain ends. `as`: v is below an entry.
    while v < usize::from(table[next]) {
        table[next] = v as u16;
        v += k;
        next = after(next, s, a);
    }
}

// Once every start is done, every step of k is closed.
fn sweep(table: &mut [u16], k: usize)
    requires { Ready k (length table.old) }
    ensures { Swept (length table.old) k (length table.old) table.old table.new }
{
    let s = k % table.len();
    // Not an iterator: each chain writes into the whole table.
    for start in 0..table.len() {
        chain(table, k, s, start);
    }
}

// A size that is reached already, as an equal one or a multiple is, adds nothing.
fn take_in(table: &mut [u16], k: usize)
    requires { (0 < length table.old) × (length table.old ≤ 100) × (k ≤ 128) × (get_or table.old 0 0 ≡ 0) }
    ensures { (ss : List ℕ) → Tabled (length table.old) ss table.old → Tabled (length table.old) (k ∷ ss) table.new }
{
    if k < usize::from(table[k % table.len()]) {
        sweep(table, k);
    }
}

// The table of all sizes.
pub fn fill(k: &[i8], table: &mut [u16])
    requires { (0 < length table.old) × (length table.old ≤ 100) }
    ensures { Tabled (length table.old) (sizes k.now) table.new }
{
    blank(table);
    for z in k.iter().rev() {
        take_in(table, usize::from(z.unsigned_abs()));
    }
}
