ghost use Rattle.std.specs.Prelude.{◌≡◌, ◌≤◌, ◌==◌, ℕ, List, Bool};
ghost use Rattle.mesh_reader.specs.Text.{blank, line_end};
ghost use Rattle.mesh_reader.specs.Numerals.{digit, magnitude, numeral};
ghost use Rattle.mesh_reader.specs.Reading.{exactly};
ghost use Rattle.mesh_reader.specs.Scanning.{separates, in_word, front, behind, past_blanks, at_word_end, rest_numerals, SameLine, IsTest, NextIf, NextMinus, Next, leading};

use super::numeral::Numeral;
use std::marker::Model;

// A number has no more digits.
const MOST_DIGITS: usize = 9;

// What is left of a line as it is gone through from left to right, each byte looked at once. Behind it there may be more of the
// text, which is not looked at: the line's end need not be known before.
#[derive(Drop)]
pub(crate) struct Rest<'a> {
    pub bytes: &'a [u8],
}

impl<'a> Model for Rest<'a> {
    ghost Value = { List ℕ };

    ghost view = { λ r. r.bytes.now };
}

fn is_blank(byte: u8) -> bool
    ensures { result ≡ blank byte }
{
    matches!(byte, b' ' | b'\t' | b'\r')
}

fn is_line_end(byte: u8) -> bool
    ensures { result ≡ line_end byte }
{
    byte == b'\n'
}

fn is_minus(byte: u8) -> bool
    ensures { result ≡ (byte == 45) }
{
    byte == b'-'
}

fn is_separator(byte: u8) -> bool
    ensures { result ≡ separates byte }
{
    is_blank(byte) || is_line_end(byte)
}

impl Rest<'_> {
    // Past all before the next byte of this kind. A copy is gone through, since the compiler keeps a copy in registers.
    fn skip_to<F: Fn(u8) -> bool>(&mut self, stops: F)
        requires { F.IsAlwaysCallable stops }
        ensures { (kind : ℕ → Bool) → IsTest (F.post stops) kind → self.new ≡ behind kind self.old }
    {
        let mut bytes = self.bytes;
        while let [byte, after @ ..] = bytes
            && !stops(*byte)
        {
            bytes = after;
        }
        self.bytes = bytes;
    }

    pub(crate) fn skip_blanks(&mut self)
        ensures { self.new ≡ past_blanks self.old }
    {
        self.skip_to(|byte| !is_blank(byte));
    }

    // Past the word that goes on here.
    fn skip_word(&mut self)
        ensures { self.new ≡ behind separates self.old }
    {
        self.skip_to(is_separator);
    }

    // To the line end, or behind the last byte where there is none.
    pub(crate) fn skip_line(&mut self)
        ensures { self.new ≡ behind line_end self.old }
    {
        self.skip_to(is_line_end);
    }

    // Whether no word goes on here.
    pub(crate) fn at_word_end(&self) -> bool
        ensures { result ≡ at_word_end self.now }
    {
        match self.bytes {
            [] => true,
            [byte, ..] => is_separator(*byte),
        }
    }

    // The next byte, if it is of this kind.
    fn next_if<F: Fn(u8) -> bool>(&mut self, is_wanted: F) -> Option<u8>
        requires { F.IsAlwaysCallable is_wanted }
        ensures { (kind : ℕ → Bool) → IsTest (F.post is_wanted) kind → NextIf kind self.old result self.new }
    {
        match self.bytes {
            [byte, after @ ..] if is_wanted(*byte) => {
                self.bytes = after;
                Some(*byte)
            }
            _ => None,
        }
    }

    // The next byte of the word that goes on here.
    pub(crate) fn next_in_word(&mut self) -> Option<u8>
        ensures { NextIf in_word self.old result self.new }
    {
        self.next_if(|byte| !is_separator(byte))
    }

    fn next_digit(&mut self) -> Option<u8>
        ensures { NextIf digit self.old result self.new }
    {
        self.next_if(|byte| byte.is_ascii_digit())
    }

    // Whether a minus is next, which is then passed.
    fn next_minus(&mut self) -> bool
        ensures { NextMinus self.old result self.new }
    {
        self.next_if(is_minus).is_some()
    }

    // The number that the next digits say, so many of them at the most. These too are gone through by a copy.
    fn digits(&mut self, most: usize) -> u32
        requires { most ≤ 9 }
        ensures { leading most 0 self.old ≡ (result, self.new) }
    {
        let mut rest = Rest { bytes: self.bytes };
        let mut value = 0;
        for _ in 0..most {
            let Some(digit) = rest.next_digit() else {
                break;
            };
            value = 10 * value + u32::from(digit - b'0');
        }
        self.bytes = rest.bytes;
        value
    }

    fn digits_of_word(&mut self) -> u32
        ensures { leading 9 0 self.old ≡ (result, self.new) }
    {
        self.digits(MOST_DIGITS)
    }

    // What the digits of the word that goes on here say, if it has 1 to 9 digits and nothing else.
    fn magnitude(&mut self) -> Option<u32>
        ensures after { self.new ≡ behind separates self.old }
        ensures value { result ≡ magnitude (front separates self.old) }
    {
        if self.at_word_end() {
            return None;
        }
        let value = self.digits_of_word();
        if self.at_word_end() {
            return Some(value);
        }
        self.skip_word();
        None
    }

    // The word that begins here, as a numeral if it is one.
    fn numeral(&mut self) -> Option<Numeral>
        ensures after { self.new ≡ behind separates self.old }
        ensures value { result ≡ numeral (front separates self.old) }
    {
        let minus = self.next_minus();
        let size = self.magnitude()?;
        Some(Numeral { minus, size })
    }

    // The next word of the line, if there is one: as a numeral, if it is one.
    fn next_word(&mut self) -> Option<Option<Numeral>>
        ensures same { SameLine self.old self.new }
        ensures next { Next self.old result self.new }
    {
        self.skip_blanks();
        if self.at_word_end() {
            return None;
        }
        Some(self.numeral())
    }

    // The rest of the line as N words, if it has just so many.
    pub(crate) fn exactly<const N: usize>(&mut self) -> Option<[Option<Numeral>; N]>
        ensures same { SameLine self.old self.new }
        ensures words { result ≡ exactly N (rest_numerals self.old) }
    {
        let mut words = [None; N];
        for word in &mut words {
            *word = self.next_word()?;
        }
        match self.next_word() {
            None => Some(words),
            Some(_) => None,
        }
    }
}
