// The format of a log: a command byte, then its operands.
ghost use Rattle.std.specs.Prelude.{◌≡◌, drop, not, replicate, slice_index};
ghost use Rattle.player.specs.Log.{number_at, operand_length, parent_of, port_at};
ghost use Rattle.player.specs.Played.{is_unknown};
ghost use Rattle.text.specs.Written.{written};

use model::{Parent, Port};

// So many bytes of a log are played.
pub const LIMIT: usize = 65536;

// The operand length of each command, by its byte less one.
const LENGTHS: [usize; 16] = [16, 16, 1, 1, 1, 1, 1, 1, 1, 1, 1, 0, 0, 17, 17, 1];

// Whether a byte is a command's: 01 to 10.
pub fn is_command(byte: u8) -> bool
    ensures { result ≡ not (is_unknown byte) }
{
    matches!(byte, 0x01..=0x10)
}

// The operand length of a command byte, 0 for a byte outside 01 to 10.
#[tactic(auto, unfolding(crate::specs::Log::operand_length))]
pub fn length_of(byte: u8) -> usize
    ensures { result ≡ operand_length byte }
{
    match byte {
        1..=16 => LENGTHS[byte as usize - 1],
        _ => 0,
    }
}

// The byte at this place, 0 past the end.
pub fn byte_at(bytes: &[u8], place: usize) -> u8
    ensures { result ≡ slice_index bytes.now place }
{
    bytes.get(place).copied().unwrap_or(0)
}

// The identity in the first byte.
pub fn identity(operands: &[u8]) -> usize
    ensures { result ≡ slice_index operands.now 0 }
{
    usize::from(byte_at(operands, 0))
}

// The parent in the first byte, FF for none.
pub fn parent(operands: &[u8]) -> Parent
    ensures { result ≡ parent_of (slice_index operands.now 0) }
{
    match byte_at(operands, 0) {
        0xFF => Parent::None,
        id => Parent::Of(usize::from(id)),
    }
}

// Eight bytes from this place; one past the end is 0.
fn eight_at(bytes: &[u8], place: usize) -> [u8; 8]
    ensures { result ≡ written (drop place bytes.now) (replicate 8 0) }
{
    let rest = bytes.get(place..).unwrap_or(&[]);
    let there = rest.len().min(8);
    let mut eight = [0; 8];
    eight[..there].copy_from_slice(&rest[..there]);
    eight
}

// They are a number, the least first.
#[tactic(auto, using(crate::proofs::Laws::Words::word_number))]
fn word_at(bytes: &[u8], place: usize) -> u64
    ensures { result ≡ number_at bytes.now place 8 }
{
    u64::from_le_bytes(eight_at(bytes, place))
}

// The key and the realm from this place.
pub fn port_at(bytes: &[u8], place: u8) -> Port
    ensures { result ≡ port_at bytes.now place }
{
    let place = usize::from(place);
    Port {
        key: word_at(bytes, place),
        realm: word_at(bytes, place + 8),
    }
}
