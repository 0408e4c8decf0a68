// Sets of controllers as masks: bit k - 1 is controller k. Numbers that have no bit are in no set.
ghost use Rattle.std.specs.Prelude.{◌≡◌, ◌≤◌, ◌^◌};
ghost use Rattle.ground.specs.Mask.{width, has, insert, remove, full_to, none_above, within, up_to};
ghost use Rattle.ground.specs.Quantify.{count_to};

// Is controller k in the set?
pub fn has(m: u32, k: u8) -> bool
    ensures { result ≡ has m k }
{
    if k < 1 {
        return false;
    }
    if 32 < k {
        return false;
    }
    (m >> (k - 1)) % 2 == 1
}

// The set with controller k; a number that has no bit leaves it as it is.
pub fn insert(m: u32, k: u8) -> u32
    ensures { result ≡ insert m k }
{
    if k < 1 {
        return m;
    }
    if 32 < k {
        return m;
    }
    m | (1u32 << (k - 1))
}

// The set without controller k.
pub fn remove(m: u32, k: u8) -> u32
    ensures { result ≡ remove m k }
{
    m & (m ^ insert(0, k))
}

// The set of 1..n, as far as masks have bits.
pub fn up_to(n: u8) -> u32
    ensures { result ≡ up_to n }
{
    if 32 <= n {
        return 0xFFFFFFFF;
    }
    (1u32 << n) - 1
}

// Does the set hold all of 1..n?
pub fn full_to(m: u32, n: u8) -> bool
    ensures { result ≡ full_to n m }
{
    if 32 < n {
        return false;
    }
    let p = power(n);
    (m as u64) & (p - 1) == p - 1
}

// Has the set no controller above n?
pub fn none_above(m: u32, n: u8) -> bool
    ensures { result ≡ none_above n m }
{
    if 32 < n {
        return true;
    }
    (m as u64) < power(n)
}

// Is every controller of a in b?
pub fn within(a: u32, b: u32) -> bool
    ensures { result ≡ within a b }
{
    a | b == b
}

// How many of 1..n are in the set.
pub fn size(m: u32, n: u8) -> u8
    ensures { result ≡ count_to n (has m) }
{
    if 32 < n {
        return u32::count_ones(m) as u8;
    }
    let p = power(n);
    let low = (m as u64) & (p - 1);
    u64::count_ones(low) as u8
}

// 2 to the n. At n = 32 that needs more than 32 bits.
fn power(n: u8) -> u64
    requires { n ≤ width }
    ensures { result ≡ 2 ^ n }
{
    1u64 << n
}
