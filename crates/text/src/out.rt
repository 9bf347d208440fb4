// Output of the programs, gathered in lent bytes and written where those are full and by `flush`. A write that fails is passed over, and the later ones are tried.
ghost use Rattle.std.specs.Prelude.{◌≡◌, ◌≤◌, IsOk, length, take};
ghost use Rattle.text.specs.Gathered.{Gathers, is_full};
ghost use Rattle.text.specs.Written.{Puts};

use crate::Text;
use std::fmt;

// What is more than this is written before the next line.
const FULL: usize = 60000;

// The first bytes, so many, are gathered.
#[derive(Drop)]
pub struct Out<'a, P: Print + Copy + Drop> {
    to: P,
    bytes: &'a mut [u8],
    len: usize,
    ghost within: { len ≤ length bytes.now },
}

impl<'a, P: Print + Copy + Drop> Out<'a, P> {
    pub fn new(to: P, bytes: &'a mut [u8]) -> Out<'a, P>
        ensures same_reference { result.bytes.ghost_name ≡ bytes.entry.ghost_name }
        ensures same { result.bytes.now ≡ bytes.old }
        ensures empty { result.len ≡ 0 }
    {
        Out { to, bytes, len: 0 }
    }

    // Writes what is gathered; then nothing is.
    pub fn flush(&mut self)
        ensures same_reference { self.new.bytes.ghost_name ≡ self.old.bytes.ghost_name }
        ensures same { self.new.bytes.now ≡ self.old.bytes.now }
        ensures empty { self.new.len ≡ 0 }
    {
        let _ = self.to.write_all(self.gathered());
        self.len = 0;
    }

    // Writes what is gathered, and behind it these bytes, which need not be text.
    pub fn write_through(&mut self, bytes: &[u8])
        ensures same_reference { self.new.bytes.ghost_name ≡ self.old.bytes.ghost_name }
        ensures same { self.new.bytes.now ≡ self.old.bytes.now }
        ensures empty { self.new.len ≡ 0 }
    {
        self.flush();
        let _ = self.to.write_all(bytes);
    }

    // What `write!` and `writeln!` call; of a value whose own printing fails there is what it had put.
    pub fn write_fmt<D: fmt::Display + Drop>(&mut self, value: D)
        ensures same_reference { self.new.bytes.ghost_name ≡ self.old.bytes.ghost_name }
        ensures same_length { length self.new.bytes.now ≡ length self.old.bytes.now }
        ensures upper_bound { self.new.len ≤ length self.old.bytes.now }
    {
        let (to, len) = (self.to, self.len);
        let (len, _) = show_at(to, self.bytes, len, value);
        self.len = len.min(self.bytes.len());
    }

    // What is gathered.
    fn gathered(&self) -> &[u8]
        ensures { result.now ≡ take self.now.len self.now.bytes.now }
    {
        &self.bytes[..self.len]
    }

    // Whether what is gathered is written before the next line.
    fn is_full(&self) -> bool
        ensures { result ≡ is_full self.now.bytes.now self.now.len }
    {
        FULL < self.len && self.bytes[self.len - 1] == b'\n'
    }

    // What has no room is gathered behind nothing, when the rest is written; what would have none even so is written itself.
    fn put(&mut self, bytes: &[u8])
        ensures same_reference { self.new.bytes.ghost_name ≡ self.old.bytes.ghost_name }
        ensures gathers { Gathers bytes.now self.old.bytes.now self.old.len self.new.bytes.now self.new.len }
    {
        if self.is_full() || self.bytes.len() - self.len < bytes.len() {
            self.flush();
        }
        if self.bytes.len() < bytes.len() {
            return self.write_through(bytes);
        }
        let len = self.len;
        self.len = put_at(self.bytes, len, bytes);
    }
}

// Puts bytes from a place on; gives the place behind them.
fn put_at(out: &mut [u8], at: usize, bytes: &[u8]) -> usize
    requires { at ≤ length out.old }
    ensures upper_bound { result ≤ length out.old }
    ensures puts { Puts bytes.now out.old at out.new result }
{
    let mut text = Text {
        bytes: out,
        len: at,
    };
    text.put(bytes);
    text.len
}

// Prints a value behind what is gathered; gives how much is gathered then, and whether the value printed itself to its end.
fn show_at<P: Print + Copy + Drop, D: fmt::Display + Drop>(
    to: P,
    bytes: &mut [u8],
    len: usize,
    value: D,
) -> (usize, bool)
    requires { len ≤ length bytes.old }
{
    let mut out = Out { to, bytes, len };
    let shown = fmt::Write::write(&mut out, value).is_ok();
    (out.len, shown)
}

// A write never fails.
impl<P: Print + Copy + Drop> fmt::Write for Out<'_, P> {
    ghost write_str_gives = { λ s bytes t. Gathers bytes s.bytes.now s.len t.bytes.now t.len × (t.bytes.ghost_name ≡ s.bytes.ghost_name) };

    fn write_str(&mut self, s: &str) -> fmt::Result
        ensures ok { IsOk result → Gathers s.now self.old.bytes.now self.old.len self.new.bytes.now self.new.len × (self.new.bytes.ghost_name ≡ self.old.bytes.ghost_name) }
        ensures always { IsOk result }
    {
        self.put(s.as_bytes());
        Ok(())
    }
}
