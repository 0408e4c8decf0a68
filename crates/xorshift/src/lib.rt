// Marsaglia's 32-bit xorshift, shifts 13 left, 17 right, 5 left.
#![tactic(auto)]

ghost use Rattle.std.specs.Prelude.{◌≡◌};
ghost use Rattle.xorshift.specs.Xorshift.{draw};
ghost use Rattle.xorshift.specs.Claim.{Draws};

// The draw after a state; it is the next state too.
pub fn draw(state: u32) -> u32
    ensures { result ≡ draw state }
{
    let x = state ^ (state << 13);
    let y = x ^ (x >> 17);
    y ^ (y << 5)
}

// What is promised of the draws: never 0 again, and the first ones from 1.
pub fn draws()
    ensures { Draws }
{}
