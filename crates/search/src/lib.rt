// Is there an x of whole numbers, zero or more, with lo <= k(0) x(0) + k(1) x(1) + .. <= hi, and which has the least total?
// A breadth-first search over the values that steps of one more can lead to, in two areas that the caller lends. A coefficient that
// stands at several places is one step, and one of 0 is none.
#![tactic(auto)]

ghost use Rattle.std.specs.Prelude.{◌≤◌, length};
ghost use Rattle.search.specs.Searched.{Searched, Ends};
ghost use Rattle.search.specs.Table.{Looked};

mod table; // table.rt: where the table puts 0 and the window

use distinct::{distinct, spread};
use spreading::{Frontier, Window};
use table::{longest, placed};
use terms::{Area, Place};
use trails::search;

// The answer for the coefficients k, with a count for each.
fn look(
    k: &[i8],
    window: Window<i32>,
    marks: &mut [u8; Area::SIZE],
    queue: &mut [u16; Area::SIZE],
) -> Option<[u16; Place::MOST]>
    requires steps { length k.now ≤ 16 }
    requires ends { Ends window.lo window.hi }
    ensures { Looked k.now window.lo window.hi result }
{
    if window.hi < window.lo {
        return None;
    }
    let table = placed(window, longest(k));
    let mark = &mut marks[..table.size];
    mark.fill(0);
    let mut frontier = Frontier {
        steps: k,
        mark,
        queue,
    };
    search(&mut frontier, table.start, table.window)
}

// The answer for the coefficients k: a count for each, and zeros behind them. What the areas hold before does not matter, and what they
// hold afterwards is not said: `lent::wipe` clears them.
pub fn find(
    k: &[i8],
    window: Window<i32>,
    marks: &mut [u8; Area::SIZE],
    queue: &mut [u16; Area::SIZE],
) -> Option<[u16; Place::MOST]>
    requires places { length k.now ≤ 16 }
    requires ends { Ends window.lo window.hi }
    ensures { Searched k.now window.lo window.hi (length k.now) result }
{
    let n = k.len();
    let mut row = [0i8; Place::MOST];
    let mut places = [0u8; Place::MOST];
    let m = distinct(k, &mut row[..n], &mut places[..n]);
    let y = look(&row[..m], window, marks, queue)?;
    let mut x = [0u16; Place::MOST];
    spread(&places[..m], &y[..m], &mut x[..n]);
    Some(x)
}
