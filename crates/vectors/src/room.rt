// What a target holds, before anything is written and after.

// Whether a target holds these bytes, and after them at each place what is told of it.
fn holds_then<F: Fn(usize) -> u8>(target: &[u8], bytes: &[u8], rest: F) -> bool
    requires { F.IsAlwaysCallable rest }
{
    match target.strip_prefix(bytes) {
        Some(tail) => tail
            .iter()
            .zip(bytes.len()..target.len())
            .all(|(x, i)| *x == rest(i)),
        None => false,
    }
}

// Whether a target holds these bytes, and one value after them.
pub fn holds(target: &[u8], bytes: &[u8], rest: u8) -> bool {
    holds_then(target, bytes, |_| rest)
}

// What lies in a target before anything is written.
pub fn laid(i: usize) -> u8 {
    (i % 251) as u8
}

// Fills a target with it.
pub fn fill(target: &mut [u8]) {
    for (i, x) in target.iter_mut().enumerate() {
        *x = laid(i);
    }
}

// Writes a number of n bytes where the target has room for it.
pub fn put(target: &mut [u8], at: usize, n: usize, x: u64) {
    if at <= target.len() && n <= target.len() - at {
        wire::put_be(target, at, n, x);
    }
}

// Whether a target holds these bytes, and after them what lay in it.
pub fn holds_over(target: &[u8], bytes: &[u8]) -> bool {
    holds_then(target, bytes, laid)
}
