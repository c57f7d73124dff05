// Hexadecimal digits, in capitals.
ghost use Rattle.std.specs.Prelude.{◌≡◌, ◌/◌, ◌^◌, ◌<◌, ◌≤◌, length, take, drop};
ghost use Rattle.command.specs.Digits.{is_digit, digit_of, value_of, byte_of, bytes_of};

/// Whether a byte is a digit: 0 to 9, or A to F.
// Stays: `is_ascii_hexdigit` and `to_digit` take a to f too, so neither is plainer with the test that rules those out.
// Two tests: one of both ranges, as a match in `digit_of`, is compiled to branches, which mixed digits mislead.
pub fn is_digit(byte: u8) -> bool
    ensures { result ≡ is_digit byte }
{
    matches!(byte, b'0'..=b'9') || matches!(byte, b'A'..=b'F')
}

/// The value of a digit, and 0 of any other byte.
pub fn digit_of(byte: u8) -> u8
    ensures is { result ≡ digit_of byte }
    ensures small { result < 16 }
{
    if !is_digit(byte) {
        return 0;
    }
    match byte {
        ..=b'9' => byte - b'0',
        _ => byte - b'A' + 10,
    }
}

// The number of a word of at most 32 digits.
pub(crate) fn value_of(word: &[u8]) -> u128
    requires { length word.now ≤ 32 }
    ensures is { result ≡ value_of word.now }
    ensures small { result < 16 ^ length word.now }
{
    let mut value = 0u128;
    for byte in word {
        value = 16 * value + u128::from(digit_of(*byte));
    }
    value
}

// Puts the bytes of a word into a buffer.
pub(crate) fn put_bytes(word: &[u8], buffer: &mut [u8])
    requires { length word.now / 2 ≤ length buffer.old }
    ensures bytes { take (length word.now / 2) buffer.new ≡ bytes_of word.now }
    ensures spared { drop (length word.now / 2) buffer.new ≡ drop (length word.now / 2) buffer.old }
{
    for (index, pair) in word.chunks_exact(2).enumerate() {
        buffer[index] = 16 * digit_of(pair[0]) + digit_of(pair[1]);
    }
}
