//! Numbers in decimal digits, where there is room for them; and bytes in hexadecimal digits.
ghost use Rattle.std.specs.Prelude.{◌≡◌, ◌<◌, ◌≤◌, ◌+◌, ◌*◌, ◌/◌, ◌%◌, [], ◌∷◌, ◌++◌, OnOk, decimal, length, slice_index, vec_len, vec_capacity};
ghost use Rattle.hex.specs.Hex.{encode_lower, lower_digits};

use std::alloc::AllocError;

/// So many bytes are encoded at once.
const BLOCK: usize = 16;

/// Adds a number below 10,000, where there is room for four digits.
#[inline(always)]
pub(crate) fn push_thousands(out: &mut Vec<u8>, number: u64)
    requires number { number < 10000 }
    requires room { vec_len out.old + 4 ≤ vec_capacity out.old }
    ensures items { out.new.items ≡ out.old.items ++ decimal number }
    ensures len { vec_len out.new ≤ vec_len out.old + 4 }
    ensures capacity { vec_capacity out.new ≡ vec_capacity out.old }
{
    if number < 1000 {
        push_hundreds(out, number);
    } else {
        push_hundreds(out, number / 10);
        push_last(out, number);
    }
}

/// Adds a number below 1,000, where there is room for three digits.
#[inline(always)]
pub(crate) fn push_hundreds(out: &mut Vec<u8>, number: u64)
    requires number { number < 1000 }
    requires room { vec_len out.old + 3 ≤ vec_capacity out.old }
    ensures items { out.new.items ≡ out.old.items ++ decimal number }
    ensures len { vec_len out.new ≤ vec_len out.old + 3 }
    ensures capacity { vec_capacity out.new ≡ vec_capacity out.old }
{
    if number < 100 {
        push_tens(out, number);
    } else {
        push_tens(out, number / 10);
        push_last(out, number);
    }
}

/// Adds a number below 100, where there is room for two digits.
#[inline(always)]
fn push_tens(out: &mut Vec<u8>, number: u64)
    requires number { number < 100 }
    requires room { vec_len out.old + 2 ≤ vec_capacity out.old }
    ensures items { out.new.items ≡ out.old.items ++ decimal number }
    ensures len { vec_len out.new ≤ vec_len out.old + 2 }
    ensures capacity { vec_capacity out.new ≡ vec_capacity out.old }
{
    if number < 10 {
        push_one(out, number);
    } else {
        push_one(out, number / 10);
        push_last(out, number);
    }
}

/// Adds a number of one digit.
#[inline(always)]
fn push_one(out: &mut Vec<u8>, number: u64)
    requires number { number < 10 }
    requires room { vec_len out.old < vec_capacity out.old }
    ensures items { out.new.items ≡ out.old.items ++ decimal number }
    ensures len { vec_len out.new ≡ vec_len out.old + 1 }
    ensures capacity { vec_capacity out.new ≡ vec_capacity out.old }
{
    out.push_reserved(b'0' + number as u8);
}

/// Adds the last digit of a number.
#[inline(always)]
fn push_last(out: &mut Vec<u8>, number: u64)
    requires { vec_len out.old < vec_capacity out.old }
    ensures items { out.new.items ≡ out.old.items ++ (48 + number % 10) ∷ [] }
    ensures len { vec_len out.new ≡ vec_len out.old + 1 }
    ensures capacity { vec_capacity out.new ≡ vec_capacity out.old }
{
    out.push_reserved(b'0' + (number % 10) as u8);
}

/// Adds two digits for each byte, block by block.
#[inline(always)]
pub(crate) fn append_digits(out: &mut Vec<u8>, bytes: &[u8]) -> Result<(), AllocError>
    ensures { OnOk result (out.new.items ≡ out.old.items ++ encode_lower bytes.now) }
{
    let mut rest = bytes;
    while BLOCK <= rest.len() {
        let (block, behind) = rest.split_at(BLOCK);
        append_block(out, block)?;
        rest = behind;
    }
    append_few(out, rest)
}

/// Adds the digits of a block.
#[inline(always)]
fn append_block(out: &mut Vec<u8>, block: &[u8]) -> Result<(), AllocError>
    requires { length block.now ≡ 16 }
    ensures { OnOk result (out.new.items ≡ out.old.items ++ encode_lower block.now) }
{
    let mut digits = [0; 2 * BLOCK];
    encode_into(&mut digits, block);
    out.extend_from_slice(&digits)
}

/// Adds the digits of fewer bytes than a block has.
#[inline(always)]
fn append_few(out: &mut Vec<u8>, bytes: &[u8]) -> Result<(), AllocError>
    requires { length bytes.now < 16 }
    ensures { OnOk result (out.new.items ≡ out.old.items ++ encode_lower bytes.now) }
{
    if bytes.is_empty() {
        return Ok(());
    }
    let mut room = [0; 2 * BLOCK];
    let digits = &mut room[..2 * bytes.len()];
    encode_into(digits, bytes);
    out.extend_from_slice(digits)
}

/// Puts two digits for each byte. They are worked out and not looked up, so that many are done at once.
#[inline(always)]
fn encode_into(digits: &mut [u8], bytes: &[u8])
    requires { length digits.old ≡ 2 * length bytes.now }
    ensures { digits.new ≡ encode_lower bytes.now }
{
    for i in 0..bytes.len() {
        let (high, low) = digits_of(bytes[i]);
        digits[2 * i] = high;
        digits[2 * i + 1] = low;
    }
}

/// The two hexadecimal digits of a byte. Each is worked out in its half of one number, in which `a` stands 39 places behind
/// where the digit after `9` would.
#[inline(always)]
fn digits_of(byte: u8) -> (u8, u8)
    ensures high { result.0 ≡ slice_index lower_digits (byte / 16) }
    ensures low { result.1 ≡ slice_index lower_digits (byte % 16) }
{
    let values = u16::from(byte / 16) + 0x100 * u16::from(byte % 16);
    let letters = ((values + 0x0606) / 16) & 0x0101;
    let digits = values + 0x3030 + 39 * letters;
    ((digits % 0x100) as u8, (digits / 0x100) as u8)
}
