// The value of amounts under coefficients, in signed integers. No sum can wrap.

ghost use Rattle.std.specs.Prelude.{◌≡◌, ◌≤◌, ◌*◌, pos, ◌*ℤ◌, length, map, unsigned_abs};
ghost use Rattle.nets.specs.HalfSpaces.{value};

// What a coefficient is multiplied with: a number of tokens, or a weight.
pub trait Amount: Copy {
    ghost use Rattle.std.specs.Prelude.{ℕ};

    ghost number: { Self → ℕ };

    fn number(self) -> u16
        ensures { result ≡ number self };
}

impl Amount for u16 {
    ghost number = { λ m. m };

    fn number(self) -> u16 {
        self
    }
}

impl Amount for u8 {
    ghost number = { λ w. w };

    fn number(self) -> u16 {
        u16::from(self)
    }
}

// A coefficient times the tokens of its place.
fn term(k: i8, tokens: u16) -> i32
    ensures value { result ≡ k *ℤ pos tokens }
    ensures size { unsigned_abs result ≤ 8388480 }
{
    i32::from(k) * i32::from(tokens)
}

// The sum of each coefficient times the amount of its place.
#[tactic(auto, unfolding(nets::specs::HalfSpaces::value))]
pub fn value_of<A: Amount>(k: &[i8], amounts: &[A]) -> i32
    requires { (length k.now ≤ 16) × (length amounts.now ≡ length k.now) }
    ensures { result ≡ value k.now (map A.number amounts.now) }
{
    let mut sum = 0;
    for (p, k) in k.iter().enumerate() {
        sum += term(*k, amounts[p].number());
    }
    sum
}
