// Ballots by their number, and majorities.
ghost use Rattle.std.specs.Prelude.{◌≡◌};
ghost use Rattle.protocol.specs.Ballots.{owner, majority};

use ground::size;

// Whose ballot b is. Of a lock without controllers, which there is not, the definition says the number itself.
pub fn owner(n: u8, b: u8) -> u8
    ensures { result ≡ owner n b }
{
    let before = b.saturating_sub(1);
    if n < 1 {
        return before + 1;
    }
    before % n + 1
}

// More than half of 1 to n are in the set.
pub fn is_majority(n: u8, m: u32) -> bool
    ensures { result ≡ majority n m }
{
    let count = size(m, n);
    (n as u32) < 2 * (count as u32)
}
