// Numbers as text (FORMAT 4.1).
ghost use Rattle.std.specs.Prelude.{◌≡◌, ◌+◌, ◌≤◌, ◌<◌, length};
ghost use Rattle.std.proofs.lemmas.List.Edits.{sets};
ghost use Rattle.iisph_words.specs.Digits.{digit_of, digits, hex_digits, hex_of, places_of, decimal_of};
ghost use Rattle.iisph_words.specs.Texts.{HasRoom, Adds};

use crate::text::Text;

// How many digits 64 bits have in base 16.
const HEX_DIGITS: usize = 16;

// The ASCII code of a digit below 16, in upper case.
fn digit(d: u64) -> u8
    requires { d < 16 }
    ensures { result ≡ digit_of d }
{
    if d < 10 {
        b'0' + d as u8
    } else {
        b'A' + (d - 10) as u8
    }
}

// How many decimal digits n has. The loop takes digits off until one is left: no range says how often.
fn places(n: u64) -> usize
    ensures { result ≡ places_of n }
{
    let mut k = 1;
    let mut rest = n;
    while rest >= 10 {
        rest /= 10;
        k += 1;
    }
    k
}

// The last k digits of n in a base, from the last one back, stored in a list. It is handed the list and not a text:
// from behind a text each digit would look anew where the list is.
fn store_digits(out: &mut [u8], at: usize, base: u64, k: usize, n: u64)
    requires { (0 < base) × (base ≤ 16) × (at + k ≤ length out.old) }
    ensures { out.new ≡ sets out.old at (digits base k n) }
{
    let mut rest = n;
    for i in (0..k).rev() {
        out[at + i] = digit(rest % base);
        rest /= base;
    }
}

impl Text<'_> {
    // The last k digits of n in a base.
    fn put_digits(&mut self, base: u64, k: usize, n: u64)
        requires { (0 < base) × (base ≤ 16) × HasRoom self.old k }
        ensures { Adds self.old (digits base k n) self.new }
    {
        store_digits(self.out, self.at, base, k, n);
        self.at += k;
    }

    // A double's bits in hex.
    pub fn put_hex(&mut self, x: f64)
        requires { HasRoom self.old hex_digits }
        ensures { Adds self.old (hex_of x) self.new }
    {
        self.put_digits(16, HEX_DIGITS, math::to_bits(x));
    }

    // A whole number in decimal.
    pub fn put_decimal(&mut self, n: u64)
        requires { HasRoom self.old (length (decimal_of n)) }
        ensures { Adds self.old (decimal_of n) self.new }
    {
        self.put_digits(10, places(n), n);
    }
}
