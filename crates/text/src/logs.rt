// A log read from a file, and what is said of one that is played, for the programs.
ghost use Rattle.std.specs.Prelude.{◌≡◌, ◌≤◌, IfSome, length, option_copied};
ghost use Rattle.text.specs.Logs.{end_said, last_answer, said_of};
ghost use Rattle.text.specs.Written.{Puts};

use crate::Text;
use std::env::{Env, FillError};
use std::fs::File;
use std::io::{self, Read, Stderr};
use std::rt::Files;
use std::str;

// How many arguments the program has, its own name among them.
pub fn argument_count(rt: &impl Env) -> usize {
    for i in 0..usize::MAX {
        if let Err(FillError::NotPresent) = rt.arg(i, &mut []) {
            return i;
        }
    }
    usize::MAX
}

// An argument, put into the buffer; empty if there is none, or no room for it.
pub fn argument<'a>(rt: &impl Env, i: usize, out: &'a mut [u8]) -> &'a [u8]
    ensures { length result.now ≤ length out.old }
{
    let count = rt.arg(i, out).unwrap_or(0);
    &out[..count]
}

// The last of the first answers, 0 if there is none.
pub fn last_answer(answers: &[u8], count: usize) -> u8
    ensures { result ≡ last_answer answers.now count }
{
    let Some(last) = count.checked_sub(1) else {
        return 0;
    };
    answers.get(last).copied().unwrap_or(0)
}

// Reads until the buffer is full, the input ends or a read fails; gives how many bytes it put at the start. Nothing is allocated.
pub fn read_full(file: &mut impl Read, log: &mut [u8]) -> usize
    ensures { result ≤ length log.old }
{
    let mut count = 0;
    while count < log.len() {
        let Ok(more @ 1..) = file.read(&mut log[count..]) else {
            break;
        };
        count += more;
    }
    count
}

// Whether the next read, of a byte, does not fail.
pub fn reads_on(file: &mut impl Read) -> bool {
    file.read(&mut [0]).is_ok()
}

// The first bytes of what is open, as many as there was room for; whole if the room is full, or the read behind them does not fail.
#[derive(Clone, Copy)]
pub struct LogRead<'a> {
    pub bytes: &'a [u8],
    pub whole: bool,
}

pub fn read_open<'a>(file: &mut impl Read, log: &'a mut [u8]) -> LogRead<'a>
    ensures { length result.bytes.now ≤ length log.old }
{
    let count = read_full(file, log);
    LogRead {
        whole: count == log.len() || reads_on(file),
        bytes: &log[..count],
    }
}

// A file opened for reading, if it can be.
pub fn open<R: Files>(rt: &R, name: &[u8]) -> Option<R::File> {
    let path = str::from_utf8(name).ok()?;
    File::open(rt, path).ok()
}

// The first bytes of a file; none of one that cannot be opened.
pub fn read_log<'a>(rt: &impl Files, name: &[u8], log: &'a mut [u8]) -> Option<LogRead<'a>>
    ensures { IfSome result (λ read. length read.bytes.now ≤ length log.old) }
{
    let mut file = open(rt, name)?;
    Some(read_open(&mut file, log))
}

// What is said of a log that ends in this answer; nothing of one that ends in another.
pub fn ended(answer: u8) -> Option<&'static [u8]>
    ensures { option_copied result ≡ end_said answer }
{
    match answer {
        11 => Some(b" ends in 11: a byte that is no command"),
        12 => Some(b" ends in 12: a command without its operands"),
        _ => None,
    }
}

// A line with a log's name, before what is made of it.
pub fn heading(rt: &impl Print, name: &[u8]) {
    let _ = rt.write_all(b"== ");
    let _ = rt.write_all(name);
    let _ = rt.write_all(b"\n");
}

// What a line is about: the program's name, and the log's.
#[derive(Clone, Copy)]
pub struct About<'a> {
    pub program: &'a [u8],
    pub name: &'a [u8],
}

impl About<'_> {
    // Puts a line: the names, and what is said.
    pub fn put(&self, text: &mut Text<'_>, what: &[u8])
        ensures same_reference { text.new.bytes.ghost_name ≡ text.old.bytes.ghost_name }
        ensures upper_bound { text.new.len ≤ length text.old.bytes.now }
        ensures puts { Puts (said_of self.now.program.now self.now.name.now what.now) text.old.bytes.now text.old.len text.new.bytes.now text.new.len }
    {
        text.put(self.program);
        text.put(b": ");
        text.put(self.name);
        text.put(what);
        text.put(b"\n");
    }

    // Writes a line to standard error.
    pub fn say(&self, stderr: Stderr, what: &[u8]) {
        let mut said = [0; 65536];
        let mut text = Text::new(&mut said);
        self.put(&mut text, what);
        warn(stderr, &text);
    }

    // Says of a log that it cannot be opened, and what is not made of it.
    pub fn tell_unopened(&self, stderr: Stderr, not_made: &[u8]) {
        let mut said = [0; 65536];
        let mut text = Text::new(&mut said);
        self.put(&mut text, b" cannot be read");
        self.put(&mut text, not_made);
        warn(stderr, &text);
    }

    // Says of a log that it could not be read whole or that this answer ended it, and then what is made of it; nothing of another log.
    pub fn tell(&self, stderr: Stderr, read: LogRead<'_>, answer: u8, made: &[u8]) {
        let mut said = [0; 65536];
        let mut text = Text::new(&mut said);
        if !read.whole {
            self.put(&mut text, b" cannot be read");
        }
        if let Some(what) = ended(answer) {
            self.put(&mut text, what);
        }
        if 0 < text.len() {
            self.put(&mut text, made);
        }
        warn(stderr, &text);
    }
}

// Writes what is gathered to standard error; a write that fails is passed over.
fn warn(stderr: Stderr, text: &Text<'_>) {
    let _ = stderr.write_all(text.as_bytes());
}
