// Text written into an area that the caller lends, piece behind piece.
#![tactic(auto)]

ghost use Rattle.std.specs.Prelude.{◌≡◌, ◌++◌, ◌+◌, length};
ghost use Rattle.text.specs.Bytes.{decimal};
ghost use Rattle.text.specs.Writing.{Puts, HasRoom};

use itoa::Buffer;

// What is written so far stands at the area's start. A length beside the area, since there is no heap for a String.
// No `fmt::Write` or `Display`: no clause of std rules out an `Err` of `write!`, and the public calls that print cannot fail.
#[derive(Drop)]
pub struct Writer<'a> {
    area: &'a mut [u8],
    len: usize,
}

// Not `copy_from_slice`: where nothing says that the two lie apart, that calls `memmove`, which the library needs of no C library.
fn copy(area: &mut [u8], bytes: &[u8])
    requires { length area.old ≡ length bytes.now }
    ensures { area.new ≡ bytes.now }
{
    for (place, byte) in area.iter_mut().enumerate() {
        *byte = bytes[place];
    }
}

impl<'a> Writer<'a> {
    pub fn new(area: &'a mut [u8]) -> Writer<'a>
        ensures same_area { result.area.ghost_name ≡ area.entry.ghost_name }
        ensures empty { (result.area.now ≡ area.old) × (result.len ≡ 0) }
    {
        Writer { area, len: 0 }
    }

    // How many bytes are written.
    pub fn len(&self) -> usize
        ensures { result ≡ self.now.len }
    {
        self.len
    }

    // Bytes as they are. Inlined, as `put_labelled` is: bytes that are known there are stored a word at a time, and not one by one.
    #[inline(always)]
    pub fn put(&mut self, bytes: &[u8])
        requires { HasRoom (length bytes.now) self.old }
        ensures { Puts bytes.now self.old self.new }
    {
        let end = self.len + bytes.len();
        copy(&mut self.area[self.len..end], bytes);
        self.len = end;
    }

    // A number in plain decimal.
    #[tactic(auto, using(crate::proofs::Decimal::decimal_printed))]
    pub fn put_number(&mut self, n: usize)
        requires { HasRoom (length (decimal n)) self.old }
        ensures { Puts (decimal n) self.old self.new }
    {
        let mut digits = Buffer::new();
        self.put(digits.format(n).as_bytes());
    }

    // A word and a number behind it.
    #[inline(always)]
    pub fn put_labelled(&mut self, word: &[u8], n: usize)
        requires { HasRoom (length word.now + length (decimal n)) self.old }
        ensures { Puts (word.now ++ decimal n) self.old self.new }
    {
        self.put(word);
        self.put_number(n);
    }
}
