// The text of a sheet's listing, in areas of the very size that judging needs.
#![tactic(auto)]

ghost use Rattle.std.specs.Prelude.{List, ℕ, ◌+◌, ◌≤◌, length};
ghost use Rattle.text.specs.Bytes.{Wrote};
ghost use Rattle.text.specs.Writing.{Puts, HasRoom};
ghost use Rattle.entries.specs.Entries.{IsLine, IsListing};

use firstline::put_counts;
use judging::judge;
use lines::put_claim;
use reader::Sheet;
use terms::{Area, Claim};
use text::Writer;
use twins::first_twin;

// The line of a claim.
fn put_line(
    writer: &mut Writer,
    sheet: &Sheet<'_>,
    number: usize,
    marks: &mut [u8; Area::SIZE],
    queue: &mut [u16; Area::SIZE],
)
    requires known { (1 ≤ number) × (number ≤ length sheet.now.claims) }
    requires room { HasRoom 125 writer.old }
    ensures line { (bs : List ℕ) × IsLine sheet.now number bs × Puts bs writer.old writer.new }
    ensures most { writer.new.len ≤ writer.old.len + 125 }
{
    let verdict = judge(&sheet.nth_half_space(number), sheet, marks, queue);
    let twin = first_twin(sheet, number);
    put_claim(writer, Claim(number), verdict, twin, sheet.counts().places);
}

// The line of counts, and each claim's.
pub fn all_lines(
    sheet: &Sheet<'_>,
    marks: &mut [u8; Area::SIZE],
    queue: &mut [u16; Area::SIZE],
    text: &mut [u8],
) -> usize
    requires { 4096 ≤ length text.old }
    ensures { (bs : List ℕ) × IsListing sheet.now bs × Wrote bs text.old 0 text.new result }
{
    let counts = sheet.counts();
    let mut writer = Writer::new(text);
    put_counts(&mut writer, counts);
    // A line says its claim's number, so the loop is over numbers.
    for number in 1..=counts.claims {
        put_line(&mut writer, sheet, number, marks, queue);
    }
    writer.len()
}
