// A list fired in one call: 02, req 01. A worker's trace is pasted whole, and moves the marking as its single steps would.
#![tactic(auto)]

ghost use Rattle.std.specs.Prelude.{◌≡◌, Ok};
ghost use Rattle.format.specs.Reading.{reading};
ghost use Rattle.traces.specs.Traces.{fired_list, list_of, halted};

use reader::Sheet;
use refusals::Refusal;
use terms::{Firings, Transition};
use walk::{Marking, step_in};

// Where a list stopped, and why. The position is that of the refused step, counted from 1, and 0 where no step was tried.
#[derive(Clone, Copy, Debug, PartialEq, Eq)]
pub struct Halt {
    pub position: usize,
    pub refusal: Refusal,
}

impl From<Refusal> for Halt {
    ghost use Rattle.std.specs.Prelude.{◌≡◌};

    ghost from_gives = { λ refusal halt. halt ≡ record { position = 0; refusal = refusal } };

    fn from(refusal: Refusal) -> Halt {
        Halt {
            position: 0,
            refusal,
        }
    }
}

// The steps of a list, on a sheet that was read.
fn fire_all(m: &mut Marking, sheet: &Sheet<'_>, list: &[usize]) -> Result<(), Halt>
    ensures value { result ≡ halted (fired_list (Ok sheet.now) list.now m.old) }
    ensures marking { m.new ≡ (fired_list (Ok sheet.now) list.now m.old).marking }
{
    let before = *m;
    for (i, number) in list.iter().enumerate() {
        if let Err(refusal) = step_in(m, sheet, Transition(*number)) {
            *m = before;
            return Err(Halt {
                position: i + 1,
                refusal,
            });
        }
    }
    Ok(())
}

// Fires a list: the marking is lent, and moved on by the whole list. It stays as it was where the call is refused.
pub fn fire_list(m: &mut Marking, bytes: &[u8], list: &[usize]) -> Result<(), Halt>
    ensures value { result ≡ halted (list_of (reading bytes.now) list.now m.old) }
    ensures marking { m.new ≡ (list_of (reading bytes.now) list.now m.old).marking }
{
    let sheet = Sheet::read(bytes)?;
    if list.len() > Firings::MOST {
        return Err(Halt::from(Refusal::LongList(list.len())));
    }
    fire_all(m, &sheet, list)
}
