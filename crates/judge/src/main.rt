// judge: reads one sheet from standard input and prints its listing (document 01, "The listing").
#![tactic(auto)]

ghost use Rattle.std.specs.Prelude.{◌≡◌, List, ℕ, ◌≤◌, length, take, IfOk};
ghost use Rattle.format.specs.Reading.{reading};
ghost use Rattle.page.specs.Page.{IsPage};

use page::page;
use std::io::{self, Read, Write};
use terms::{Area, Text};

// Takes standard input in, until it ends or the room is full, by reads that may be short; and how much, from the start of the room.
fn take_in<R: Read>(reader: &mut R, room: &mut [u8]) -> io::Result<usize>
    ensures { IfOk result (λ kept. kept ≤ length room.new) }
{
    let mut kept = 0;
    // Not `read_to_end`: there is no heap to read into.
    while kept < room.len() {
        let more = reader.read(&mut room[kept..])?;
        if more == 0 {
            break;
        }
        kept += more;
    }
    Ok(kept)
}

// What is printed for every input that begins with what was kept: a sheet's page depends on its first 2,891 bytes alone.
fn page_of(kept: &[u8], marks: &mut [u8], queue: &mut [u16], text: &mut [u8]) -> usize
    requires kept_len_bound { length kept.now ≤ 4096 }
    requires in_bounds { (20000 ≤ length marks.old) × (20000 ≤ length queue.old) × (4096 ≤ length text.old) }
    ensures by_index { (s : List ℕ) → take 4096 s ≡ kept.now → IsPage (reading s) (take result text.new) }
    ensures upper_bound { result ≤ length text.new }
{
    page(kept, marks, queue, text)
}

fn show<R: Print>(rt: &R, kept: &[u8])
    requires { length kept.now ≤ 4096 }
{
    let mut marks = [0u8; Area::SIZE];
    let mut queue = [0u16; Area::SIZE];
    let mut text = [0u8; Text::SIZE];
    let n = page_of(kept, &mut marks, &mut queue, &mut text);
    let _ = io::writer(rt).write_all(&text[..n]);
}

fn main(rt: HostRuntime) {
    let mut room = [0u8; Text::SIZE];
    match take_in(&mut rt.reader(), &mut room) {
        Ok(kept) => show(&rt, &room[..kept]),
        Err(_) => {
            let _ = eprintln!(&rt;
                "judge: standard input could not be read, so nothing was judged"
            );
        }
    }
}
