// Text written into a byte buffer, for the program's report: numbers in decimal, and lines of a
// word and numbers.
// Each method writes one text behind what was written before, over what was there and over nothing
// else; the caller proves that the buffer is long enough.
// Uses `base_outputs` for what a slice holds afterwards.
#![tactic(auto)]

ghost use Rattle.std.specs.Prelude.{[], ◌∷◌};
ghost use Rattle.report_text.specs.Text.{decimal, spaced, spaced_numbers, text_line};
ghost use Rattle.report_text.specs.Internal.Text.{HasCapacity, TextWritten};

use base_outputs::put_at;

// A buffer, and the place behind what was written into it.
#[derive(Drop)]
pub struct Text<'a> {
    pub out: &'a mut [u8],
    pub at: usize,
}

impl<'a> Text<'a> {
    fn put_byte(&mut self, byte: u8)
        requires { HasCapacity self.old (byte ∷ []) }
        ensures { TextWritten self.old (byte ∷ []) self.new }
    {
        self.out[self.at] = byte;
        self.at += 1;
    }

    fn put_word(&mut self, word: &[u8])
        requires { HasCapacity self.old word.now }
        ensures { TextWritten self.old word.now self.new }
    {
        put_at(self.out, self.at, word);
        self.at += word.len();
    }

    // The digits of n, and no zero in front.
    fn put_number(&mut self, n: usize)
        requires { HasCapacity self.old (decimal n) }
        ensures { TextWritten self.old (decimal n) self.new }
    {
        let is_digit = n < 10;
        if is_digit {
            return self.put_byte(b'0' + n as u8);
        }
        self.put_number(n / 10);
        self.put_byte(b'0' + (n % 10) as u8);
    }

    // A space and a number.
    fn put_spaced(&mut self, n: usize)
        requires { HasCapacity self.old (spaced n) }
        ensures { TextWritten self.old (spaced n) self.new }
    {
        self.put_byte(b' ');
        self.put_number(n);
    }

    // Each number behind a space.
    fn put_numbers(&mut self, numbers: &[usize])
        requires { HasCapacity self.old (spaced_numbers numbers.now) }
        ensures { TextWritten self.old (spaced_numbers numbers.now) self.new }
    {
        for n in numbers {
            self.put_spaced(*n);
        }
    }

    // A line of a word and numbers.
    pub fn put_line(&mut self, word: &[u8], numbers: &[usize])
        requires { HasCapacity self.old (text_line word.now numbers.now) }
        ensures { TextWritten self.old (text_line word.now numbers.now) self.new }
    {
        self.put_word(word);
        self.put_numbers(numbers);
        self.put_byte(b'\n');
    }
}
