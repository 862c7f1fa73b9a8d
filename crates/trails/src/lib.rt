// From an entry of the queue back to the start: the counts that lead there.
#![tactic(auto)]

ghost use Rattle.std.specs.Prelude.{◌≡◌, ◌+◌, ◌-◌, ◌<◌, ◌≤◌, length, replicate};
ghost use Rattle.signed.specs.Parts.{positive_part, negative_part};
ghost use Rattle.spreading.specs.Areas.{SameAreas};
ghost use Rattle.spreading.specs.State.{Entry};
ghost use Rattle.trails.specs.Led.{Trailed, Room, Leads};

use spreading::{Frontier, Window};

// The position from which a step of k leads to w.
fn former(w: usize, k: i8) -> usize
    requires { (w < 20000) × (positive_part k ≤ w + negative_part k) }
    ensures { result ≡ w + negative_part k - positive_part k }
{
    w.wrapping_sub_signed(isize::from(k))
}

// The counts that lead from `start` to entry h of the queue, one for each step, and zeros behind them.
fn trail<const N: usize>(frontier: &Frontier<'_>, start: usize, h: usize) -> [u16; N]
    requires steps { length frontier.now.steps.now ≤ N }
    requires entry { let f = frontier.now in Entry f.steps.now f.mark.now f.queue.now start h }
    ensures { let f = frontier.now in Trailed f.steps.now f.mark.now f.queue.now start h result }
{
    let mut x = [0u16; N];
    let mut w = usize::from(frontier.queue[h]);
    // Not a `for`: how many steps there were shows only at the start.
    while w != start {
        let p = usize::from(frontier.mark[w]) - 1;
        w = former(w, frontier.steps[p]);
        x[p] += 1;
    }
    x
}

// The search in a table that is as long as `mark`: the fewest counts that lead into the window, one for each step, and zeros behind them.
pub fn search<const N: usize>(
    frontier: &mut Frontier<'_>,
    start: usize,
    window: Window<usize>,
) -> Option<[u16; N]>
    requires steps { length frontier.old.steps.now ≤ N }
    requires room { Room frontier.old.steps.now (length frontier.old.mark.now) start window.lo window.hi }
    requires unmarked { frontier.old.mark.now ≡ replicate (length frontier.old.mark.now) 0 }
    ensures same { SameAreas frontier.old frontier.new }
    ensures led { let f = frontier.old in Leads f.steps.now (length f.mark.now) start window.lo window.hi result }
{
    let h = frontier.reach(start, window)?;
    Some(trail(frontier, start, h))
}
