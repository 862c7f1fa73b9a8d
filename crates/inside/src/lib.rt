// Do the start, or some target marking, lie inside?
#![tactic(auto)]

ghost use Rattle.std.specs.Prelude.{◌≡◌, ◌↔◌, IsTrue, ◌≤◌, length};
ghost use Rattle.nets.specs.HalfSpaces.{Inside};
ghost use Rattle.nets.specs.Verdicts.{Setting, TargetInside};
ghost use Rattle.reader.specs.Targets.{target_shown};

use amounts::Kind;
use reader::Target;
use tables::signs::some_above;
use values::value_of;

// Does a marking lie inside?
#[tactic(auto, unfolding(nets::specs::HalfSpaces::Inside))]
pub fn is_inside(coefficients: &[i8], constant: i16, tokens: &[u16]) -> bool
    requires { (length coefficients.now ≤ 16) × (length tokens.now ≡ length coefficients.now) }
    ensures { IsTrue result ↔ Inside (record { coefficients = coefficients.now; constant = constant }) tokens.now }
{
    i32::from(constant) <= value_of(coefficients, tokens)
}

// Does some marking of the target: the written one, or for kind 1 one above it?
pub fn target_inside(coefficients: &[i8], constant: i16, target: Target) -> bool
    requires { length coefficients.now ≤ 16 }
    ensures { (q : Setting) → target ≡ target_shown q.target → length q.target.tokens ≡ length coefficients.now → (IsTrue result ↔ TargetInside q (record { coefficients = coefficients.now; constant = constant })) }
{
    let written = is_inside(coefficients, constant, &target.tokens[..coefficients.len()]);
    match target.kind {
        Kind::Exact => written,
        Kind::AtOrAbove => written || some_above(coefficients),
    }
}
