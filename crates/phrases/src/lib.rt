// What the line of a claim is made of beside its verdict: tokens, and a twin.
#![tactic(auto)]

ghost use Rattle.std.specs.Prelude.{◌+◌, ◌≤◌, ◌<◌, length, IfSome};
ghost use Rattle.text.specs.Writing.{Puts, HasRoom};
ghost use Rattle.phrases.specs.Phrases.{tokens_text, twin_text};

use terms::Claim;
use text::Writer;

// The tokens of a marking, each behind a space.
pub fn put_tokens(writer: &mut Writer, marking: &[u16])
    requires { (length marking.now ≤ 16) × HasRoom 96 writer.old }
    ensures { Puts (tokens_text marking.now) writer.old writer.new × (writer.new.len ≤ writer.old.len + 96) }
{
    for tokens in marking {
        writer.put_labelled(b" ", usize::from(*tokens));
    }
}

// The lowest earlier twin, if there is one.
#[tactic(auto, using(crate::proofs::Texts::two_digits))]
pub fn put_twin(writer: &mut Writer, twin: Option<Claim>)
    requires { HasRoom 8 writer.old × IfSome twin (λ claim. claim.0 < 100) }
    ensures { Puts (twin_text twin) writer.old writer.new × (writer.new.len ≤ writer.old.len + 8) }
{
    if let Some(claim) = twin {
        writer.put_labelled(b" twin ", claim.0);
    }
}
