// The line of a claim.
#![tactic(auto)]

ghost use Rattle.std.specs.Prelude.{◌+◌, ◌≤◌, ◌<◌, IfSome};
ghost use Rattle.text.specs.Writing.{Puts, HasRoom};
ghost use Rattle.lines.specs.Lines.{answer_text, answer_line, Brief};

use judged::Verdict;
use phrases::{put_tokens, put_twin};
use terms::Claim;
use text::Writer;

// The verdict, in words; broken with the transition and the tokens of the n places.
#[tactic(auto, using(phrases::proofs::Texts::two_digits))]
fn put_verdict(writer: &mut Writer, verdict: Verdict, n: usize)
    requires { (n ≤ 16) × HasRoom 105 writer.old × Brief verdict }
    ensures { Puts (answer_text verdict n) writer.old writer.new × (writer.new.len ≤ writer.old.len + 105) }
{
    match verdict {
        Verdict::StartOutside => writer.put(b"start-outside"),
        Verdict::TargetInside => writer.put(b"target-inside"),
        Verdict::Broken(t, marking) => {
            writer.put_labelled(b"broken ", t.0);
            put_tokens(writer, &marking[..n]);
        }
        Verdict::Proof => writer.put(b"proof"),
    }
}

// The claim's number, its verdict, and its lowest earlier twin if there is one.
#[tactic(auto, using(phrases::proofs::Texts::two_digits))]
pub fn put_claim(writer: &mut Writer, claim: Claim, verdict: Verdict, twin: Option<Claim>, n: usize)
    requires brief { (n ≤ 16) × (claim.0 < 100) × Brief verdict × IfSome twin (λ earlier. earlier.0 < 100) }
    requires room { HasRoom 125 writer.old }
    ensures { Puts (answer_line claim.0 verdict twin n) writer.old writer.new × (writer.new.len ≤ writer.old.len + 125) }
{
    writer.put_labelled(b"claim ", claim.0);
    writer.put(b" ");
    put_verdict(writer, verdict, n);
    put_twin(writer, twin);
    writer.put(b"\n");
}
