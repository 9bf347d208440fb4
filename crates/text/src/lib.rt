// Text for the programs: answers, explanations, tables and a kernel's status as Display, bytes gathered in a buffer; and a log's file and lines of words read.
#![tactic(auto)]

ghost use Rattle.std.specs.Prelude.{◌≡◌, ◌≤◌, ◌+◌, ◌∷◌, IfSome, IsOk, drop, length, min, take};
ghost use Rattle.std.specs.Bool.{OnTrue};
ghost use Rattle.text.specs.Written.{Puts, decimal};

use std::fmt::{self, Write};

pub mod answers;
pub mod asked;
pub mod explanations;
pub mod logs;
pub mod made;
pub mod out;
pub mod status;
pub mod stored;
pub mod words;

// Lent bytes, gathered from the front: what is put stands behind what was put before, and what is past the end is left out.
#[derive(Drop)]
pub struct Text<'a> {
    bytes: &'a mut [u8],
    len: usize,
    ghost within: { len ≤ length bytes.now },
}

impl<'a> Text<'a> {
    pub fn new(bytes: &'a mut [u8]) -> Text<'a>
        ensures same_reference { result.bytes.ghost_name ≡ bytes.entry.ghost_name }
        ensures same { result.bytes.now ≡ bytes.old }
        ensures empty { result.len ≡ 0 }
    {
        Text { bytes, len: 0 }
    }

    // Behind what stands in the first bytes already; at the end where there are fewer.
    pub fn at(bytes: &'a mut [u8], at: usize) -> Text<'a>
        ensures same_reference { result.bytes.ghost_name ≡ bytes.entry.ghost_name }
        ensures same { result.bytes.now ≡ bytes.old }
        ensures place { result.len ≡ min at (length bytes.old) }
    {
        let len = at.min(bytes.len());
        Text { bytes, len }
    }

    // How many bytes are put.
    pub fn len(&self) -> usize
        ensures value { result ≡ self.now.len }
        ensures within { result ≤ length self.now.bytes.now }
    {
        self.len
    }

    // What is put.
    pub fn as_bytes(&self) -> &[u8]
        ensures bytes { result.now ≡ take self.now.len self.now.bytes.now }
        ensures size { length result.now ≡ self.now.len }
    {
        &self.bytes[..self.len]
    }

    // How many more have room.
    pub fn free(&self) -> usize
        ensures { result + self.now.len ≡ length self.now.bytes.now }
    {
        self.bytes.len() - self.len
    }

    pub fn put(&mut self, bytes: &[u8])
        ensures same_reference { self.new.bytes.ghost_name ≡ self.old.bytes.ghost_name }
        ensures upper_bound { self.new.len ≤ length self.old.bytes.now }
        ensures puts { Puts bytes.now self.old.bytes.now self.old.len self.new.bytes.now self.new.len }
    {
        let end = self.len + bytes.len().min(self.bytes.len() - self.len);
        self.bytes[self.len..end].copy_from_slice(&bytes[..end - self.len]);
        self.len = end;
    }

    pub fn number(&mut self, n: u64)
        ensures same_reference { self.new.bytes.ghost_name ≡ self.old.bytes.ghost_name }
        ensures upper_bound { self.new.len ≤ length self.old.bytes.now }
        ensures puts { Puts (decimal n) self.old.bytes.now self.old.len self.new.bytes.now self.new.len }
    {
        let mut digits = [0u8; 20];
        let first = put_digits(n, &mut digits);
        self.put(&digits[first..]);
    }

    // A space and a number.
    pub fn field(&mut self, n: u64)
        ensures same_reference { self.new.bytes.ghost_name ≡ self.old.bytes.ghost_name }
        ensures upper_bound { self.new.len ≤ length self.old.bytes.now }
        ensures puts { Puts (32 ∷ decimal n) self.old.bytes.now self.old.len self.new.bytes.now self.new.len }
    {
        self.put(b" ");
        self.number(n);
    }

    // Puts what a value prints, and cannot fail; says whether the value printed itself to its end.
    pub fn show<D: fmt::Display + Drop>(&mut self, value: D) -> bool
        ensures same_reference { self.new.bytes.ghost_name ≡ self.old.bytes.ghost_name }
        ensures same_length { length self.new.bytes.now ≡ length self.old.bytes.now }
        ensures upper_bound { self.new.len ≤ length self.old.bytes.now }
        ensures puts { OnTrue result (IfSome (D.output value) (λ text. Puts text self.old.bytes.now self.old.len self.new.bytes.now self.new.len)) }
    {
        let (len, shown) = show_at(self.bytes, self.len, value);
        self.len = len.min(self.bytes.len());
        shown
    }
}

// Puts what a value prints from a place on; gives the place behind it, and whether the value printed itself to its end.
fn show_at<D: fmt::Display + Drop>(bytes: &mut [u8], at: usize, value: D) -> (usize, bool)
    ensures { OnTrue result.1 (IfSome (D.output value) (λ text. Puts text bytes.old (min at (length bytes.old)) bytes.new result.0)) }
{
    let mut text = Text::at(bytes, at);
    let shown = text.write(value).is_ok();
    (text.len(), shown)
}

// A write never fails.
impl fmt::Write for Text<'_> {
    ghost write_str_gives = { λ s bytes t. Puts bytes s.bytes.now s.len t.bytes.now t.len × (t.bytes.ghost_name ≡ s.bytes.ghost_name) };

    fn write_str(&mut self, s: &str) -> fmt::Result
        ensures ok { IsOk result → Puts s.now self.old.bytes.now self.old.len self.new.bytes.now self.new.len × (self.new.bytes.ghost_name ≡ self.old.bytes.ghost_name) }
        ensures always { IsOk result }
    {
        self.put(s.as_bytes());
        Ok(())
    }
}

// Puts a number's digits at the end of the array; gives the place of the first.
fn put_digits(n: u64, digits: &mut [u8; 20]) -> usize
    ensures in_bounds { result ≤ 20 }
    ensures digits { drop result digits.new ≡ decimal n }
{
    let mut at = 20;
    let mut rest = n;
    while 10 <= rest {
        at -= 1;
        digits[at] = b'0' + (rest % 10) as u8;
        rest /= 10;
    }
    at -= 1;
    digits[at] = b'0' + rest as u8;
    at
}
