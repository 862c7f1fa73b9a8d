// The page: what `judge` prints of any sheet, sound or not.
#![tactic(auto)]

ghost use Rattle.std.specs.Prelude.{◌≡◌, ◌≤◌, length, take};
ghost use Rattle.format.specs.Reading.{reading};
ghost use Rattle.pairs.specs.Pairs.{area_after};
ghost use Rattle.listing.specs.Listed.{listing_check};
ghost use Rattle.page.specs.Page.{IsPage, Starts};

use firstline::refusal_page;
use listing::listing_of;

// What a program prints of a sheet, at the start of the text: the listing, or the line of the refusal.
pub fn page(bytes: &[u8], marks: &mut [u8], queue: &mut [u16], text: &mut [u8]) -> usize
    requires { (20000 ≤ length marks.old) × (20000 ≤ length queue.old) × (4096 ≤ length text.old) }
    ensures page { IsPage (reading bytes.now) (take result text.new) }
    ensures starts { Starts result text.old text.new }
    ensures marks_after { marks.new ≡ area_after (listing_check (reading bytes.now) (length marks.old) (length queue.old) (length text.old)) marks.old }
    ensures queue_after { queue.new ≡ area_after (listing_check (reading bytes.now) (length marks.old) (length queue.old) (length text.old)) queue.old }
{
    match listing_of(bytes, marks, queue, text) {
        Ok(length) => length,
        Err(refusal) => refusal_page(refusal, text),
    }
}
