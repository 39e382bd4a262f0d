//! Bytes that are spelled in hexadecimal digits.
ghost use Rattle.std.specs.Prelude.{◌≡◌, ◌*◌, ◌<◌, ◌≤◌, Some, None, Ok, IfOk, length, option_map};
ghost use Rattle.std.specs.Bool.{OnTrue, OnFalse};
ghost use Rattle.std.specs.Result.{result_ok};
ghost use Rattle.hex.specs.Hex.{decode_of, decode_pairs, hex_digit_value};

use std::alloc::{AllocError, Global};

// What each byte says as a hexadecimal digit, in either case; 255 where it is none.
const DIGIT_VALUES: [u8; 256] = [
    255, 255, 255, 255, 255, 255, 255, 255, 255, 255, 255, 255, 255, 255, 255, 255, 255, 255, 255,
    255, 255, 255, 255, 255, 255, 255, 255, 255, 255, 255, 255, 255, 255, 255, 255, 255, 255, 255,
    255, 255, 255, 255, 255, 255, 255, 255, 255, 255, 0, 1, 2, 3, 4, 5, 6, 7, 8, 9, 255, 255, 255,
    255, 255, 255, 255, 10, 11, 12, 13, 14, 15, 255, 255, 255, 255, 255, 255, 255, 255, 255, 255,
    255, 255, 255, 255, 255, 255, 255, 255, 255, 255, 255, 255, 255, 255, 255, 255, 10, 11, 12, 13,
    14, 15, 255, 255, 255, 255, 255, 255, 255, 255, 255, 255, 255, 255, 255, 255, 255, 255, 255,
    255, 255, 255, 255, 255, 255, 255, 255, 255, 255, 255, 255, 255, 255, 255, 255, 255, 255, 255,
    255, 255, 255, 255, 255, 255, 255, 255, 255, 255, 255, 255, 255, 255, 255, 255, 255, 255, 255,
    255, 255, 255, 255, 255, 255, 255, 255, 255, 255, 255, 255, 255, 255, 255, 255, 255, 255, 255,
    255, 255, 255, 255, 255, 255, 255, 255, 255, 255, 255, 255, 255, 255, 255, 255, 255, 255, 255,
    255, 255, 255, 255, 255, 255, 255, 255, 255, 255, 255, 255, 255, 255, 255, 255, 255, 255, 255,
    255, 255, 255, 255, 255, 255, 255, 255, 255, 255, 255, 255, 255, 255, 255, 255, 255, 255, 255,
    255, 255, 255, 255, 255, 255, 255, 255, 255, 255, 255, 255, 255, 255, 255, 255, 255, 255, 255,
    255, 255, 255,
];

/// The bytes that hexadecimal digits say, two digits a byte; none where the digits are an odd number, or
/// one is no digit.
pub(crate) fn decode_digits(alloc: Global, digits: &[u8]) -> Result<Option<Vec<u8>>, AllocError>
    ensures { IfOk result (λ found. result_ok (decode_of digits.now) ≡ option_map (λ bytes. bytes.items) found) }
{
    if digits.len() % 2 != 0 {
        return Ok(None);
    }
    let mut out = vec![in alloc; 0u8; digits.len() / 2]?;
    if decode_pairs_into(digits, out.as_mut_slice()) {
        Ok(Some(out))
    } else {
        Ok(None)
    }
}

// Whether all are digits; then the bytes that they say stand in `out`.
fn decode_pairs_into(digits: &[u8], out: &mut [u8]) -> bool
    requires { length digits.now ≡ 2 * length out.old }
    ensures yes { OnTrue result (decode_pairs 0 digits.now ≡ Ok out.new) }
    ensures no { OnFalse result (result_ok (decode_pairs 0 digits.now) ≡ None) }
{
    for i in 0..out.len() {
        let high = digit_value(digits[2 * i]);
        let low = digit_value(digits[2 * i + 1]);
        if high > 15 || low > 15 {
            return false;
        }
        out[i] = high * 16 + low;
    }
    true
}

// What a byte says as a digit; 255 where it is none.
fn digit_value(byte: u8) -> u8
    ensures digit { result ≤ 15 → hex_digit_value byte ≡ Some result }
    ensures none { 15 < result → hex_digit_value byte ≡ None }
{
    DIGIT_VALUES[byte as usize]
}
