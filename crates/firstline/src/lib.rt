// The first line of what is printed: the counts, or a refusal.
#![tactic(auto)]

ghost use Rattle.std.specs.Prelude.{◌≤◌, length};
ghost use Rattle.text.specs.Bytes.{Wrote};
ghost use Rattle.text.specs.Writing.{Puts, HasRoom};
ghost use Rattle.firstline.specs.FirstLine.{counts_line, refused_line, refusal_line};

use reader::Counts;
use refusals::Refusal;
use text::Writer;

pub fn put_counts(writer: &mut Writer, counts: Counts)
    requires { HasRoom (length (counts_line counts.places counts.transitions counts.claims)) writer.old }
    ensures { Puts (counts_line counts.places counts.transitions counts.claims) writer.old writer.new }
{
    writer.put_labelled(b"places ", counts.places);
    writer.put_labelled(b" transitions ", counts.transitions);
    writer.put_labelled(b" claims ", counts.claims);
    writer.put(b"\n");
}

// In at most 36 bytes.
fn put_refusal(writer: &mut Writer, number: u8, detail: usize)
    requires { HasRoom 36 writer.old }
    ensures { Puts (refused_line number detail) writer.old writer.new }
{
    writer.put_labelled(b"refused ", usize::from(number));
    writer.put_labelled(b" at ", detail);
    writer.put(b"\n");
}

// The line of any number and detail, at the start of a text that is long enough.
pub fn refused_page(number: u8, detail: usize, text: &mut [u8]) -> usize
    requires { 4096 ≤ length text.old }
    ensures { Wrote (refused_line number detail) text.old 0 text.new result }
{
    let mut writer = Writer::new(text);
    put_refusal(&mut writer, number, detail);
    writer.len()
}

// The line of a refusal, at the start of a text that is long enough.
pub fn refusal_page(refusal: Refusal, text: &mut [u8]) -> usize
    requires { 4096 ≤ length text.old }
    ensures { Wrote (refusal_line refusal) text.old 0 text.new result }
{
    refused_page(refusal.number(), refusal.detail(), text)
}
