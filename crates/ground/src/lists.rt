// Lists that are read and changed by number, counted from 1, as the controllers are.
ghost use Rattle.std.specs.Prelude.{◌≡◌};
ghost use Rattle.ground.specs.Lists.{nth, put};

// Element k; a number that has no place reads as `other`.
pub fn nth<T: Copy, const N: usize>(xs: [T; N], k: usize, other: T) -> T
    ensures { result ≡ nth other xs k }
{
    if k < 1 {
        return other;
    }
    if N < k {
        return other;
    }
    xs[k - 1]
}

// The list with x as its element k. One that has no element k stays as it is; 0 stands for the first element, as in the definition.
pub fn put<T: Copy, const N: usize>(xs: [T; N], k: usize, x: T) -> [T; N]
    ensures { result ≡ put xs k x }
{
    let mut next = xs;
    let at = k.saturating_sub(1);
    if at < N {
        next[at] = x;
    }
    next
}
