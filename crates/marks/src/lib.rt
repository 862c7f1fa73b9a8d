// What every record opens with: its mark, and its length.
#![tactic(auto)]

ghost use Rattle.std.specs.Prelude.{◌≡◌, ◌+◌, ◌≤◌, length, IfOk};
ghost use Rattle.format.specs.Reading.{marked_at, whole_at, opened_at};

use refusals::Refusal;

// The two bytes that open a record.
#[derive(Clone, Copy, Debug, PartialEq, Eq)]
pub struct Mark(pub u8, pub u8);

impl Mark {
    // The numbers of places and transitions.
    pub const NP: Mark = Mark(b'N', b'P');

    // A transition.
    pub const TR: Mark = Mark(b'T', b'R');

    // The start.
    pub const MK: Mark = Mark(b'M', b'K');

    // The target.
    pub const TG: Mark = Mark(b'T', b'G');

    // A claim.
    pub const HS: Mark = Mark(b'H', b'S');
}

// A byte place of a sheet, or its end.
#[derive(Clone, Copy)]
pub struct Cursor<'a> {
    pub sheet: &'a [u8],
    pub at: usize,
    ghost within: { at ≤ length sheet.now },
}

impl Cursor<'_> {
    // The mark that is due there.
    #[tactic(auto, unfolding(format::specs::Reading::marked_at))]
    pub fn marked(self, mark: Mark) -> Result<(), Refusal>
        ensures { result ≡ marked_at self.entry.sheet.now self.entry.at mark.0 mark.1 }
    {
        if self.sheet.len() - self.at < 2 {
            return Err(Refusal::Cut(self.at));
        }
        if self.sheet[self.at] != mark.0 || self.sheet[self.at + 1] != mark.1 {
            return Err(Refusal::Mark(self.at));
        }
        Ok(())
    }

    // A record of that size.
    #[tactic(auto, unfolding(format::specs::Reading::whole_at))]
    pub fn whole(self, size: usize) -> Result<(), Refusal>
        ensures fits { IfOk result (λ _. self.entry.at + size ≤ length self.entry.sheet.now) }
        ensures value { result ≡ whole_at self.entry.sheet.now self.entry.at size }
    {
        if self.sheet.len() - self.at < size {
            return Err(Refusal::Cut(self.at));
        }
        Ok(())
    }

    // A record's mark, and then its length.
    #[tactic(auto, unfolding(format::specs::Reading::opened_at))]
    pub fn opened(self, mark: Mark, size: usize) -> Result<(), Refusal>
        ensures fits { IfOk result (λ _. self.entry.at + size ≤ length self.entry.sheet.now) }
        ensures value { result ≡ opened_at self.entry.sheet.now self.entry.at mark.0 mark.1 size }
    {
        self.marked(mark)?;
        self.whole(size)
    }
}
