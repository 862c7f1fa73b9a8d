// The window of Theorem 1, in signed integers, and the marking that a vector in it gives.
ghost use Rattle.std.specs.Prelude.{◌≡◌, ℕ, ◌≤◌, length, get_or};
ghost use Rattle.nets.specs.Nets.{◌⊞◌};
ghost use Rattle.nets.specs.HalfSpaces.{sixteen};
ghost use Rattle.nets.specs.Window.{low_end, high_end};
ghost use Rattle.search.specs.Searched.{Ends};

use spreading::Window;
use terms::Place;
use values::{Arcs, HalfSpace};

// Its ends: what the constant has over the weights taken, and one less than what it has over the weights put.
pub fn window_of(half_space: &HalfSpace, arcs: &Arcs<'_>) -> Window<i32>
    requires { length arcs.now.taken ≡ length half_space.now.coefficients }
    ensures value { (result.lo ≡ low_end half_space.now arcs.now) × (result.hi ≡ high_end half_space.now arcs.now) }
    ensures ends { Ends result.lo result.hi }
{
    let c = i32::from(half_space.constant());
    let a = half_space.value_taken(arcs);
    let b = half_space.value_put(arcs);
    Window {
        lo: c - a,
        hi: c - b - 1,
    }
}

// The weights taken and a vector beside them.
pub fn beside(taken: &[u8], mut x: [u16; Place::MOST]) -> [u16; Place::MOST]
    requires places { length taken.now ≤ 16 }
    requires room { (p : ℕ) → get_or x p 0 ≤ 19900 }
    ensures { result ≡ sixteen 0 taken.now ⊞ x }
{
    for (p, weight) in taken.iter().enumerate() {
        x[p] += u16::from(*weight);
    }
    x
}
