// A breadth-first search over positions: from each entry of the queue in its order, one step by each place. A position's mark names the place whose step led there first.
#![tactic(auto)]

ghost use Rattle.std.specs.Prelude.{◌≡◌, ◌<◌, ◌≤◌, ◌↔◌, IsTrue, length, replicate};
ghost use Rattle.signed.specs.Parts.{positive_part, negative_part};
ghost use Rattle.spreading.specs.State.{Next, State, Sizes, Expanded, Reaches};

// From lo to hi, both inside: positions, or whole numbers. Where hi is below lo there is nothing inside.
// Not a `RangeInclusive`: one that was gone through has nothing inside any more, which each contract would have to rule out.
#[derive(Clone, Copy, Debug, PartialEq, Eq)]
pub struct Window<T> {
    pub lo: T,
    pub hi: T,
}

impl Window<usize> {
    fn holds(self, v: usize) -> bool
        ensures { IsTrue result ↔ ((self.lo ≤ v) × (v ≤ self.hi)) }
    {
        self.lo <= v && v <= self.hi
    }
}

// The position one step of k from v, and v itself where that lies outside the table. A sum below 0 wraps to more than any position:
// one test then covers both ends. In 32 bits the step, which the whole search waits for, is shorter; `as` for the same reason.
fn next(v: usize, k: i8, size: usize) -> usize
    requires { (v < size) × (size ≤ 20000) }
    ensures { Next v (positive_part k) (negative_part k) size result }
{
    let w = (v as u32).wrapping_add_signed(i32::from(k)) as usize;
    if w < size { w } else { v }
}

// A search's steps, and its two areas, which the caller lends, since there is no heap: a mark for each position, and the queue.
#[derive(Drop)]
pub struct Frontier<'a> {
    pub steps: &'a [i8],
    pub mark: &'a mut [u8],
    pub queue: &'a mut [u16],
    ghost sizes: { Sizes steps.now mark.now queue.now },
}

impl<'a> Frontier<'a> {
    ghost use Rattle.spreading.specs.Areas.{SameAreas};

    // Entry `head` of the queue is expanded: a position one step away that is not marked yet is marked and queued.
    fn expand(&mut self, head: usize, tail: usize) -> usize
        requires head_lt_tail { head < tail }
        requires state { let s = self.old in State s.steps.now s.mark.now s.queue.now head 0 tail }
        ensures same { SameAreas self.old self.new }
        ensures done { let s = self.new in Expanded s.steps.now s.mark.now s.queue.now self.old.queue.now head tail result }
    {
        // As slices of their own the areas are read once, and not at each step.
        let mark = &mut *self.mark;
        let queue = &mut *self.queue;
        let v = usize::from(queue[head]);
        let mut end = tail;
        for (p, step) in self.steps.iter().enumerate() {
            let w = next(v, *step, mark.len());
            if mark[w] == 0 {
                // `as`: both fit, and the search, which is the costliest loop, spends nothing on a test.
                mark[w] = (p + 1) as u8;
                queue[end] = w as u16;
                end += 1;
            }
        }
        end
    }

    // The first entry of the queue that lies in the window, in breadth-first order from `start`.
    pub fn reach(&mut self, start: usize, window: Window<usize>) -> Option<usize>
        requires start_in_bounds { (start < length self.old.mark.now) × (self.old.mark.now ≡ replicate (length self.old.mark.now) 0) }
        ensures same { SameAreas self.old self.new }
        ensures reached { let s = self.new in Reaches s.steps.now s.mark.now s.queue.now start window.lo window.hi result }
    {
        self.mark[start] = 255;
        self.queue[0] = start as u16; // fits, as above
        let mut head = 0;
        let mut tail = 1;
        // Not a `for`: the queue grows while it is read.
        while head < tail {
            if window.holds(usize::from(self.queue[head])) {
                return Some(head);
            }
            tail = self.expand(head, tail);
            head += 1;
        }
        None
    }
}
