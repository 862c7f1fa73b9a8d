// Where the table puts 0 and the window: as low as it can, with room for every step that leads towards the window.
ghost use Rattle.search.specs.Searched.{Ends};
ghost use Rattle.search.specs.Table.{Length, Longest, Roomy, Placed};
ghost use Rattle.std.specs.Prelude.{◌≤ℤ◌};

use spreading::Window;

// The positions of 0 and of the window, and how many positions there are.
#[derive(Clone, Copy, Debug, PartialEq, Eq)]
pub struct Table {
    pub start: usize,
    pub size: usize,
    pub window: Window<usize>,
}

// How far a step leads at most.
pub fn longest(k: &[i8]) -> i32
    ensures { Longest k.now result }
{
    let mut most = 0;
    for step in k {
        most = most.max(i32::from(*step).abs());
    }
    most
}

// The lowest position for 0 with room for every step that leads towards the window.
fn lowest_start(window: Window<i32>, m: i32) -> i32
    requires ends { Ends window.lo window.hi }
    requires lo_le_hi { window.lo ≤ℤ window.hi }
    requires length { Length m }
    ensures { Roomy window.lo window.hi m result }
{
    (-window.lo).max(m - window.hi).max(0)
}

// The table for a window and steps of at most m.
pub fn placed(window: Window<i32>, m: i32) -> Table
    requires ends { Ends window.lo window.hi }
    requires lo_le_hi { window.lo ≤ℤ window.hi }
    requires length { Length m }
    ensures { Placed window.lo window.hi m result }
{
    let start = lowest_start(window, m);
    let lo = start + window.lo;
    let hi = start + window.hi;
    let size = (start + 1).max(lo + m);
    // `as`: none is below 0, and `usize::try_from` would add an error that never comes.
    Table {
        start: start as usize,
        size: size as usize,
        window: Window {
            lo: lo as usize,
            hi: hi as usize,
        },
    }
}
