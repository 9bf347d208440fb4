// The words of a line: its name, and behind it its operands.
ghost use Rattle.std.specs.Prelude.{◌≡◌, ◌+◌, ◌*◌, ◌<◌, ◌≤◌, ℕ, IfSome, cond, is_some, ltb, None, Some, length};
ghost use Rattle.loops.specs.Limits.{AtMost};
ghost use Rattle.text.specs.Words.{digit_of, is_number, most, names_in, with_digits};
ghost use Rattle.text.specs.Operands.{number_of, operand};

// An operand: a number, a phase as its place among the four, or `-`.
#[derive(Clone, Copy)]
pub enum Operand {
    Number(u64),
    Dash,
}

impl Operand {
    // The number; of `-` the place behind the phases.
    pub fn number(self) -> u64
        ensures { result ≡ number_of self }
    {
        match self {
            Operand::Number(number) => number,
            Operand::Dash => 4,
        }
    }
}

// A line's operands: those that are there, then 0.
#[derive(Clone, Copy)]
pub struct Line {
    pub operands: [Operand; 7],
}

// Word k of a line, empty if it has fewer.
pub fn word(line: &[u8], k: usize) -> &[u8]
    ensures { length result.now ≤ length line.now }
{
    line.split(|byte| *byte == b' ').nth(k).unwrap_or(&[])
}

// The place of a word in a row of names, a space after each; past them, which is their number, if it is none of them.
pub fn place_of(names: &[u8], word: &[u8]) -> usize
    ensures { result ≤ names_in names.now }
{
    let mut place = 0;
    let mut start = 0;
    for (i, byte) in names.iter().enumerate() {
        if *byte == b' ' {
            if &names[start..i] == word {
                break;
            }
            place += 1;
            start = i + 1;
        }
    }
    place
}

// The value of a digit.
fn digit(byte: u8) -> Option<u64>
    ensures { result ≡ cond (ltb (digit_of byte) 10) (Some (digit_of byte)) None }
{
    match byte {
        b'0'..=b'9' => Some(u64::from(byte - b'0')),
        _ => None,
    }
}

// The number with one digit more; the largest number if it is more than that.
fn with_digit(value: u64, digit: u64) -> u64
    ensures { AtMost (value * 10 + digit) most result }
{
    value.saturating_mul(10).saturating_add(digit)
}

// A word as a number, if it has digits alone, and at least one; the largest number if it is more than that.
pub fn number(word: &[u8]) -> Option<u64>
    ensures at_most { IfSome result (λ value. AtMost (with_digits 0 word.now) most value) }
    ensures known { is_some result ≡ is_number word.now }
{
    if word.is_empty() {
        return None;
    }
    let mut value = 0;
    for byte in word {
        value = with_digit(value, digit(*byte)?);
    }
    Some(value)
}

fn operand_of(word: &[u8]) -> Option<Operand> {
    match word {
        b"Inactive" => Some(Operand::Number(0)),
        b"Loading" => Some(Operand::Number(1)),
        b"Active" => Some(Operand::Number(2)),
        b"Unloading" => Some(Operand::Number(3)),
        b"-" => Some(Operand::Dash),
        _ => number(word).map(Operand::Number),
    }
}

impl Line {
    // The operands of a line, up to an empty word; none if they are not this many, or one is no operand.
    pub fn read(line: &[u8], count: usize) -> Option<Line>
        ensures room { IfSome result (λ line. count ≤ 7) }
        ensures rest { IfSome result (λ line. (k : ℕ) → count ≤ k → k < 7 → operand line k ≡ 0) }
    {
        let words = line.split(|byte| *byte == b' ').skip(1);
        let mut operands = [Operand::Number(0); 7];
        let mut known = 0;
        for word in words.take_while(|word| !word.is_empty()) {
            if known == operands.len() {
                return None;
            }
            operands[known] = operand_of(word)?;
            known += 1;
        }
        (known == count).then_some(Line { operands })
    }
}
