// Arithmetic that never wraps. Where a number is too large the result says so, and a comparison with it fails.

// The largest number: it stands for every sum or product that does not fit.
pub const TOO_LARGE: u64 = 18446744073709551615;

// Probability 1, in units.
pub const WHOLE: u64 = 281474976710656;

pub fn plus(a: u64, b: u64) -> u64 {
    a.saturating_add(b)
}

// a - b, and 0 where `b` is the larger.
pub fn less(a: u64, b: u64) -> u64 {
    a.saturating_sub(b)
}

// a × b, where `a` is at most WHOLE and `b` below 65,536.
pub fn times(a: u64, b: u64) -> u64 {
    if WHOLE < a {
        return TOO_LARGE;
    }
    if 65535 < b {
        return TOO_LARGE;
    }
    a * b
}

// Whether a × b is at most c × d; false where a product is too large to tell.
pub fn at_most(a: u64, b: u64, c: u64, d: u64) -> bool {
    let left = times(a, b);
    let right = times(c, d);
    if right == TOO_LARGE {
        return false;
    }
    left <= right
}

// Whether a × b is c × d; false where a product is too large to tell.
pub fn equal(a: u64, b: u64, c: u64, d: u64) -> bool {
    let left = times(a, b);
    let right = times(c, d);
    if right == TOO_LARGE {
        return false;
    }
    left == right
}

// The last digit of `n` to the base `base`.
pub fn digit(n: u64, base: u64) -> u64 {
    if base == 0 {
        return 0;
    }
    n % base
}

// `n` without its last digit.
pub(crate) fn other_digits(n: u64, base: u64) -> u64 {
    if base == 0 {
        return 0;
    }
    n / base
}

// How many numbers of `digits` digits there are to the base `base`.
pub fn power(base: u64, digits: usize) -> u64 {
    (0..digits).fold(1, |all, _| times(all, base))
}

// The number at place `at` of a list, and 0 past its end.
pub fn read(list: &[u32], at: usize) -> u32 {
    list.get(at).copied().unwrap_or(0)
}

pub fn wide(n: u32) -> u64 {
    u64::from(n)
}

// A number as 32 bits; the largest stands for one that does not fit.
pub(crate) fn narrow(n: u64) -> u32 {
    u32::try_from(n).unwrap_or(u32::MAX)
}
