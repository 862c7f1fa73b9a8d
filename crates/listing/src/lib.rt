// The listing of a sheet: document 01, "The listing".
#![tactic(auto)]

ghost use Rattle.std.specs.Prelude.{◌≡◌, List, ℕ, ◌≤◌, length, replicate};
ghost use Rattle.format.specs.Reading.{reading};
ghost use Rattle.pairs.specs.Pairs.{area_after};
ghost use Rattle.text.specs.Bytes.{Wrote};
ghost use Rattle.entries.specs.Entries.{IsListing};
ghost use Rattle.listing.specs.Listed.{IsListed, IsRefusalText, room_check, listing_check};

use entries::all_lines;
use firstline::refused_page;
use lent::wipe;
use reader::Sheet;
use refusals::Refusal;
use terms::{Area, Text};

// The refusals in their order, behind the sheet's.
fn checked(marks: usize, queue: usize, room: usize) -> Result<(), Refusal>
    ensures { result ≡ room_check marks queue room }
{
    if !Area::fit(marks, queue) {
        return Err(Refusal::SmallArea);
    }
    if room < Text::SIZE {
        return Err(Refusal::SmallText);
    }
    Ok(())
}

// All lines, with areas that are wiped afterwards.
fn written(
    sheet: &Sheet<'_>,
    marks: &mut [u8; Area::SIZE],
    queue: &mut [u16; Area::SIZE],
    text: &mut [u8],
) -> usize
    requires { 4096 ≤ length text.old }
    ensures lines { (bs : List ℕ) × IsListing sheet.now bs × Wrote bs text.old 0 text.new result }
    ensures marks_wiped { marks.new ≡ replicate 20000 0 }
    ensures queue_wiped { queue.new ≡ replicate 20000 0 }
{
    let end = all_lines(sheet, marks, queue, text);
    wipe(marks, queue);
    end
}

// The listing of a sound sheet, at the start of the text, and how long it is. The sheet is read once.
pub fn listing_of(
    bytes: &[u8],
    marks: &mut [u8],
    queue: &mut [u16],
    text: &mut [u8],
) -> Result<usize, Refusal>
    ensures listed { IsListed (reading bytes.now) (length marks.old) (length queue.old) text.old text.new result }
    ensures marks_after { marks.new ≡ area_after (listing_check (reading bytes.now) (length marks.old) (length queue.old) (length text.old)) marks.old }
    ensures queue_after { queue.new ≡ area_after (listing_check (reading bytes.now) (length marks.old) (length queue.old) (length text.old)) queue.old }
{
    let sheet = Sheet::read(bytes)?;
    checked(marks.len(), queue.len(), text.len())?;
    let marks = marks.first_chunk_mut().unwrap();
    let queue = queue.first_chunk_mut().unwrap();
    Ok(written(&sheet, marks, queue, text))
}

// The line of a refusal's number and detail, at the start of the text, and how long it is.
pub fn refusal_text(number: u8, detail: usize, text: &mut [u8]) -> Result<usize, Refusal>
    ensures { IsRefusalText number detail text.old text.new result }
{
    if text.len() < Text::SIZE {
        return Err(Refusal::SmallText);
    }
    Ok(refused_page(number, detail, text))
}
