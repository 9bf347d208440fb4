// Bytes put into a lent slice one behind another; one past the end is left out. Numbers stand least byte first.
ghost use Rattle.std.specs.Prelude.{◌≡◌, ◌+◌, length};
ghost use Rattle.player.specs.Gathered.{Gathers};
ghost use Rattle.text.specs.Written.{Puts};

use model::{Binding, Error, Port};
use text::Text;

#[derive(Drop)]
pub struct Bytes<'a>(Text<'a>);

impl<'a> Bytes<'a> {
    pub fn new(out: &'a mut [u8]) -> Self
        ensures same_reference { result.0.bytes.ghost_name ≡ out.entry.ghost_name }
        ensures same { result.0.bytes.now ≡ out.old }
        ensures empty { result.0.len ≡ 0 }
    {
        Bytes(Text::new(out))
    }

    // How many are put.
    pub fn len(&self) -> usize
        ensures { result ≡ self.now.0.len }
    {
        self.0.len()
    }

    // How many more fit.
    pub fn free(&self) -> usize
        ensures { result + self.now.0.len ≡ length self.now.0.bytes.now }
    {
        self.0.free()
    }

    pub fn put(&mut self, bytes: &[u8])
        ensures same_reference { self.new.0.bytes.ghost_name ≡ self.old.0.bytes.ghost_name }
        ensures puts { Puts bytes.now self.old.0.bytes.now self.old.0.len self.new.0.bytes.now self.new.0.len }
    {
        self.0.put(bytes);
    }

    pub fn byte(&mut self, byte: u8)
        ensures { Gathers self.old self.new }
    {
        self.put(&[byte]);
    }

    // 1 for yes, 0 for no.
    pub fn flag(&mut self, flag: bool)
        ensures { Gathers self.old self.new }
    {
        self.byte(u8::from(flag));
    }

    // A number's low byte.
    pub fn small(&mut self, number: usize)
        ensures { Gathers self.old self.new }
    {
        self.put(&number.to_le_bytes()[..1]);
    }

    // Its two low bytes.
    pub fn half(&mut self, number: usize)
        ensures { Gathers self.old self.new }
    {
        self.put(&number.to_le_bytes()[..2]);
    }

    pub fn word(&mut self, number: u64)
        ensures { Gathers self.old self.new }
    {
        self.put(&number.to_le_bytes());
    }

    // 1 and the number, or 0 and 0.
    pub fn optional(&mut self, number: Option<u64>)
        ensures { Gathers self.old self.new }
    {
        self.flag(number.is_some());
        self.word(number.unwrap_or(0));
    }

    pub fn port(&mut self, port: Port)
        ensures { Gathers self.old self.new }
    {
        self.word(port.key);
        self.word(port.realm);
    }

    pub fn binding(&mut self, binding: Binding)
        ensures { Gathers self.old self.new }
    {
        self.port(Port::from(binding));
        self.word(binding.provider as u64);
    }

    // An answer's number, and a count.
    pub fn counted<T: Drop>(&mut self, answer: Result<T, Error>, count: usize)
        ensures { Gathers self.old self.new }
    {
        self.byte(records::answer_number(answer));
        self.half(count);
    }

    // An answer's number and its count, 0 where it is refused.
    pub fn head(&mut self, answer: Result<usize, Error>)
        ensures { Gathers self.old self.new }
    {
        self.counted(answer, answer.unwrap_or(0));
    }
}
