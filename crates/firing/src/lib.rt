// What a firing does to each place of a marking.
#![tactic(auto)]

ghost use Rattle.std.specs.Prelude.{◌≡◌, length, OnOk, OnErr, Ok};
ghost use Rattle.nets.specs.Nets.{fire};
ghost use Rattle.format.specs.Read.{◌>>◌};
ghost use Rattle.firing.specs.Firing.{lowest_short, lowest_over, firing_check};
ghost use Rattle.values.specs.Held.{arcs_in};

use refusals::Refusal;
use terms::Place;
use values::Arcs;

// The lowest place that has fewer tokens than are taken.
pub fn short(tokens: &[u16], taken: &[u8]) -> Result<(), Refusal>
    requires { length taken.now ≡ length tokens.now }
    ensures { result ≡ lowest_short (length tokens.now) taken.now tokens.now }
{
    for (p, held) in tokens.iter().enumerate() {
        if *held < u16::from(taken[p]) {
            return Err(Refusal::NotEnabled(Place(p + 1)));
        }
    }
    Ok(())
}

// The lowest place that would pass the most tokens, once those taken have left.
pub fn over(tokens: &[u16], taken: &[u8], put: &[u8]) -> Result<(), Refusal>
    requires taken { length taken.now ≡ length tokens.now }
    requires put { length put.now ≡ length tokens.now }
    requires enabled { lowest_short (length tokens.now) taken.now tokens.now ≡ Ok tt }
    ensures { result ≡ lowest_over (length tokens.now) (fire (arcs_in taken.now put.now) tokens.now) }
{
    for (p, held) in tokens.iter().enumerate() {
        let left = *held - u16::from(taken[p]);
        if Place::TOKENS - u16::from(put[p]) < left {
            return Err(Refusal::TooManyTokens(Place(p + 1)));
        }
    }
    Ok(())
}

// A firing that no place refuses.
pub fn move_on(tokens: &mut [u16], taken: &[u8], put: &[u8])
    requires taken { length taken.now ≡ length tokens.old }
    requires put { length put.now ≡ length tokens.old }
    requires enabled { lowest_short (length tokens.old) taken.now tokens.old ≡ Ok tt }
    requires room { lowest_over (length tokens.old) (fire (arcs_in taken.now put.now) tokens.old) ≡ Ok tt }
    ensures { tokens.new ≡ fire (arcs_in taken.now put.now) tokens.old }
{
    for (p, held) in tokens.iter_mut().enumerate() {
        *held = *held - u16::from(taken[p]) + u16::from(put[p]);
    }
}

// Fires a transition: the tokens of the net's places move on. A refusal changes none.
pub fn fire(tokens: &mut [u16], arcs: &Arcs<'_>) -> Result<(), Refusal>
    requires { length arcs.now.taken ≡ length tokens.old }
    ensures value { result ≡ firing_check (length tokens.old) arcs.now tokens.old }
    ensures moved { OnOk result (tokens.new ≡ fire arcs.now tokens.old) }
    ensures kept { OnErr result (tokens.new ≡ tokens.old) }
{
    let taken = arcs.taken();
    let put = arcs.put();
    short(tokens, taken)?;
    over(tokens, taken, put)?;
    move_on(tokens, taken, put);
    Ok(())
}
