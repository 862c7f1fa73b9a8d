// The areas that a call borrows are cleared.
#![tactic(auto)]

ghost use Rattle.std.specs.Prelude.{◌≤◌, length};
ghost use Rattle.lent.specs.Wiped.{Wiped};

use terms::Area;

// The first entries of both are 0 afterwards, as many as a call borrows, and the others as they were.
pub fn wipe(marks: &mut [u8], queue: &mut [u16])
    requires { (20000 ≤ length marks.old) × (20000 ≤ length queue.old) }
    ensures { Wiped 20000 marks.old marks.new × Wiped 20000 queue.old queue.new }
{
    marks[..Area::SIZE].fill(0);
    queue[..Area::SIZE].fill(0);
}
