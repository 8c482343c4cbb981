//! The numerals of a ticket's text, written. Each call appends a colon and one numeral.
ghost use Rattle.std.specs.Prelude.{◌≡◌, ◌+◌, ◌^◌, ◌<◌, ◌≤◌, ◌∷◌, ◌++◌, codes, decimal};
ghost use Rattle.arrayvec.specs.ArrayString.{array_string_len};
ghost use Rattle.kk_code.specs.Ticket.{hex, hex_digit};

use arrayvec::ArrayString;
use itoa::Buffer;

/// The character of a digit below 16, 0-9 and a-f.
fn hex_digit(digit: u8) -> char
    requires { digit < 16 }
    ensures { result ≡ hex_digit digit }
{
    char::from(if digit < 10 {
        b'0' + digit
    } else {
        b'a' + (digit - 10)
    })
}

/// Appends `width` hexadecimal digits of `n`, the most significant first; `width` is at most 16.
pub(crate) fn push_hex(text: &mut ArrayString<64>, n: u64, width: u32)
    requires wide { width ≤ 16 }
    requires room { array_string_len text.old + 1 + width ≤ 64 }
    ensures bytes { text.new.bytes ≡ text.old.bytes ++ 58 ∷ hex width n }
    ensures len { array_string_len text.new ≡ array_string_len text.old + 1 + width }
{
    text.push(':');
    for i in 0..width {
        let place = width - 1 - i;
        text.push(hex_digit(((n >> (4 * place)) % 16) as u8));
    }
}

/// Appends the decimal of `n`, which is below 10^7.
pub(crate) fn push_decimal(text: &mut ArrayString<64>, n: u32)
    requires small { n < 10 ^ 7 }
    requires room { array_string_len text.old + 8 ≤ 64 }
    ensures bytes { text.new.bytes ≡ text.old.bytes ++ 58 ∷ decimal n }
    ensures len { array_string_len text.new ≤ array_string_len text.old + 8 }
{
    let mut digits = Buffer::new();
    text.push_str(":");
    text.push_str(digits.format(n));
}
