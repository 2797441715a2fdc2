//! Addresses as they are printed: in hexadecimal digits.
ghost use Rattle.std.specs.Prelude.{◌/◌, ◌%◌, ◌<◌, [], ◌∷◌, false};
ghost use Rattle.std.specs.Fmt.{digit_glyph, digits};
ghost use Rattle.cfi_text.specs.Lines.{address_text};
ghost use Rattle.cfi_text.specs.Texts.{Puts};

use crate::name_parts::digit;
use crate::text::Text;

impl Text {
    /// Appends an address, as `0x` and lower-case digits.
    pub fn address(&mut self, address: u64)
        ensures { Puts (address_text address) self.old self.new }
    {
        self.put(b"0x");
        self.hexadecimal(address);
    }

    /// Appends the number in lower-case hexadecimal digits.
    fn hexadecimal(&mut self, number: u64)
        ensures { Puts (digits 16 false number) self.old self.new }
    {
        if number < 0x1_0000 {
            self.few_digits(number as u16);
            return;
        }
        self.hexadecimal(number / 0x1_0000);
        self.four_digits((number % 0x1_0000) as u16);
    }

    /// Appends the number in one to four hexadecimal digits.
    fn few_digits(&mut self, number: u16)
        ensures { Puts (digits 16 false number) self.old self.new }
    {
        if number >= 0x1000 {
            self.four_digits(number)
        } else if number >= 0x100 {
            self.three_digits(number)
        } else if number >= 16 {
            self.two_digits(number as u8)
        } else {
            self.put(&[digit(number as u8)])
        }
    }

    /// Appends the number in four hexadecimal digits.
    fn four_digits(&mut self, number: u16)
        ensures { Puts (digit_glyph false (number / 4096) ∷ digit_glyph false (number / 256 % 16)
            ∷ digit_glyph false (number / 16 % 16) ∷ digit_glyph false (number % 16) ∷ [])
            self.old self.new }
    {
        let first = digit((number / 0x1000) as u8);
        let second = digit((number / 0x100 % 16) as u8);
        let third = digit((number / 16 % 16) as u8);
        self.put(&[first, second, third, digit((number % 16) as u8)]);
    }

    /// Appends the number in three hexadecimal digits.
    fn three_digits(&mut self, number: u16)
        requires { number < 4096 }
        ensures { Puts (digit_glyph false (number / 256) ∷ digit_glyph false (number / 16 % 16)
            ∷ digit_glyph false (number % 16) ∷ []) self.old self.new }
    {
        let first = digit((number / 0x100) as u8);
        let second = digit((number / 16 % 16) as u8);
        self.put(&[first, second, digit((number % 16) as u8)]);
    }

    /// Appends the number in two hexadecimal digits.
    fn two_digits(&mut self, number: u8)
        ensures { Puts (digit_glyph false (number / 16) ∷ digit_glyph false (number % 16) ∷ [])
            self.old self.new }
    {
        self.put(&[digit(number / 16), digit(number % 16)]);
    }
}
