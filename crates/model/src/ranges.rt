// Which numbers there are.
ghost use Rattle.std.specs.Prelude.{◌≡◌};
ghost use Rattle.model.specs.Ranges.{sizes_in_range, is_controller, different_controllers, position_in_range, is_ballot, is_backup, is_second_backup};

use ground::LIMIT;

// Are n and f in range?
pub fn sizes_in_range(n: u8, f: u8) -> bool
    ensures { result ≡ sizes_in_range n f }
{
    if n < 2 {
        return false;
    }
    if LIMIT < usize::from(n) {
        return false;
    }
    1 <= f && f < n
}

// Is k the number of a controller?
pub fn is_controller(n: u8, k: u8) -> bool
    ensures { result ≡ is_controller n k }
{
    1 <= k && k <= n
}

// Are sender and receiver numbers of controllers, and different?
pub fn different_controllers(n: u8, from: u8, to: u8) -> bool
    ensures { result ≡ different_controllers n from to }
{
    if !is_controller(n, from) {
        return false;
    }
    if !is_controller(n, to) {
        return false;
    }
    from != to
}

// Is a position in range? It is the two's complement of its millimetres.
pub fn position_in_range(p: u32) -> bool
    ensures { result ≡ position_in_range p }
{
    p <= 20000 || 4294947296 <= p
}

// Is it the number of a ballot?
pub fn is_ballot(b: u32) -> bool
    ensures { result ≡ is_ballot b }
{
    1 <= b && b <= 255
}

// Is k one of 1 to f?
pub fn is_backup(f: u8, k: u8) -> bool
    ensures { result ≡ is_backup f k }
{
    k <= f
}

// Is k the controller f + 1? That number need not fit a u8.
pub(crate) fn is_second_backup(f: u8, k: u8) -> bool
    ensures { result ≡ is_second_backup f k }
{
    u16::from(k) == u16::from(f) + 1
}
