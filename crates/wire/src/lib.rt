// Big-endian numbers of 1 to 8 bytes in byte slices, and a layout of fields.
#![tactic(auto)]

ghost use Rattle.std.specs.Prelude.{◌≡◌, ◌+◌, ◌≤◌, ◌<◌, ◌^◌, length};
ghost use Rattle.wire.specs.Be.{be_at, bytes_of, put};
ghost use Rattle.wire.specs.Layout.{total, bytes_of_all};

// The number of the n bytes from at on: the one reader, of any width.
pub fn be(s: &[u8], at: usize, n: usize) -> u64
    requires { (n ≤ 8) × (at + n ≤ length s.now) }
    ensures { (result ≡ be_at s.now at n) × (result < 256 ^ n) }
{
    let mut x: u64 = 0;
    for i in 0..n {
        x = x * 256 + s[at + i] as u64;
    }
    x
}

// Writes the n lowest bytes of x from at on: the one writer, of any width. Every other byte stays.
pub fn put_be(s: &mut [u8], at: usize, n: usize, x: u64)
    requires { at + n ≤ length s.old }
    ensures { s.new ≡ put s.old at (bytes_of n x) }
{
    let mut rest = x;
    for left in (0..n).rev() {
        s[at + left] = (rest % 256) as u8;
        rest = rest / 256;
    }
}

// The widths of the protocol's fields, each over the one reader.

pub fn u8_at(s: &[u8], at: usize) -> u8
    requires { at + 1 ≤ length s.now }
    ensures { result ≡ be_at s.now at 1 }
{
    be(s, at, 1) as u8
}

pub fn u16_at(s: &[u8], at: usize) -> u16
    requires { at + 2 ≤ length s.now }
    ensures { result ≡ be_at s.now at 2 }
{
    be(s, at, 2) as u16
}

pub fn u32_at(s: &[u8], at: usize) -> u32
    requires { at + 4 ≤ length s.now }
    ensures { result ≡ be_at s.now at 4 }
{
    be(s, at, 4) as u32
}

pub fn u48_at(s: &[u8], at: usize) -> u64
    requires { at + 6 ≤ length s.now }
    ensures { (result ≡ be_at s.now at 6) × (result < 2 ^ 48) }
{
    be(s, at, 6)
}

pub fn u64_at(s: &[u8], at: usize) -> u64
    requires { at + 8 ≤ length s.now }
    ensures { result ≡ be_at s.now at 8 }
{
    be(s, at, 8)
}

// Writes the numbers of a layout's fields, one after the other, from at on.
pub fn put_fields(s: &mut [u8], at: usize, widths: &[usize], values: &[u64])
    requires { (length widths.now ≡ length values.now) × (at + total widths.now ≤ length s.old) }
    ensures { s.new ≡ put s.old at (bytes_of_all widths.now values.now) }
{
    let mut p = at;
    for i in 0..widths.len() {
        put_be(s, p, widths[i], values[i]);
        p += widths[i];
    }
}

// Writes a run of bytes from at on. Every other byte stays.
pub fn put_bytes(s: &mut [u8], at: usize, bs: &[u8])
    requires { at + length bs.now ≤ length s.old }
    ensures { s.new ≡ put s.old at bs.now }
{
    s[at..at + bs.len()].copy_from_slice(bs);
}
