// The fields of a record: little-endian numbers of two and four bytes, signed ones of four, and doubles of eight.
ghost use Rattle.std.specs.Prelude.{◌≡◌, ◌+◌, ◌*◌, ◌≤◌, length, take, drop};
ghost use Rattle.districts.specs.Lent.{written};
ghost use Rattle.records.specs.Bytes.{field, signed as signed_of, signed_fields};
ghost use Rattle.records.specs.Layout.{double as double_of};

use std::num::f64_from_bits_with_nan;

// The N bytes from a place on.
fn array<const N: usize>(bytes: &[u8], at: usize) -> [u8; N]
    requires { at + N ≤ length bytes.now }
    ensures { result ≡ take N (drop at bytes.now) }
{
    *bytes[at..at + N].as_array().unwrap()
}

pub fn two(bytes: &[u8], at: usize) -> usize
    requires { at + 2 ≤ length bytes.now }
    ensures { result ≡ field bytes.now at 2 }
{
    u16::from_le_bytes(array(bytes, at)) as usize
}

pub fn four(bytes: &[u8], at: usize) -> u32
    requires { at + 4 ≤ length bytes.now }
    ensures { result ≡ field bytes.now at 4 }
{
    u32::from_le_bytes(array(bytes, at))
}

pub fn signed(bytes: &[u8], at: usize) -> i32
    requires { at + 4 ≤ length bytes.now }
    ensures { result ≡ signed_of (field bytes.now at 4) }
{
    i32::from_le_bytes(array(bytes, at))
}

// A pattern of any NaN is read as the one NaN.
pub fn double(bytes: &[u8], at: usize) -> f64
    requires { at + 8 ≤ length bytes.now }
    ensures { result ≡ double_of bytes.now at }
{
    f64_from_bits_with_nan(u64::from_le_bytes(array(bytes, at)))
}

// Writes m signed numbers from a place on to the first places of a list. By index: the two go by strides of four and of one.
pub fn signed_fields(bytes: &[u8], at: usize, m: usize, to: &mut [i32])
    requires there { at + 4 * m ≤ length bytes.now }
    requires room { m ≤ length to.old }
    ensures { to.new ≡ written (signed_fields bytes.now at m) to.old }
{
    for k in 0..m {
        to[k] = signed(bytes, at + 4 * k);
    }
}
