// For Rust, the explanation of each command of a log as bytes, all of the same length.
ghost use Rattle.std.specs.Prelude.{◌≤◌, length};
ghost use Rattle.player.specs.Gathered.{Gathers};

use crate::said::{LogExplanation, why_next};
use model::{Binding, LinkAt, Measured, Repeat, Resolution, Unresolved, Witness};
use player::put::Bytes;
use player::start;

// So many bytes: the answer, the place and the test, and what the test found, a kind and five numbers.
const RECORD: usize = 44;

// The place of the log's own refusals, behind those of the rules' table (0 to 13, in the order of the enum).
const LOG: u8 = 14;

// What a test found: its kind and five numbers, 0 where it has fewer.
#[derive(Clone, Copy)]
struct Found {
    kind: u8,
    numbers: [u64; 5],
}

const NOTHING: Found = Found {
    kind: 0,
    numbers: [0; 5],
};

// Key, realm, 2 and the Active provider, 1 and the owner that is not Active, or 0 and 0 if nobody provides the port.
fn unresolved(unresolved: Unresolved) -> [u64; 5] {
    let Unresolved { port, found } = unresolved;
    let (how, id) = match found {
        Resolution::Provider(id) => (2, id),
        Resolution::NotActive(id) => (1, id),
        Resolution::NoOwner => (0, 0),
    };
    [port.key, port.realm, how, id as u64, 0]
}

fn link(link: LinkAt) -> [u64; 5] {
    let Binding {
        key,
        realm,
        provider,
    } = link.binding;
    [
        link.place as u64,
        link.consumer as u64,
        key,
        realm,
        provider as u64,
    ]
}

// The measures and the two lists have their numbers by the order of their enums.
fn numbered(witness: Witness) -> Found {
    let (kind, numbers) = match witness {
        Witness::Nothing => (0, [0; 5]),
        Witness::Component(id) => (1, [id as u64, 0, 0, 0, 0]),
        Witness::Dependency(missing) => (2, unresolved(missing)),
        Witness::Link(at) => (3, link(at)),
        Witness::Child(id) => (4, [id as u64, 0, 0, 0, 0]),
        Witness::Clash(
            Binding {
                key,
                realm,
                provider,
            },
        ) => (5, [key, realm, provider as u64, 0, 0]),
        Witness::Repeated(
            Repeat {
                list,
                earlier,
                later,
            },
        ) => (6, [list as u64, earlier as u64, later as u64, 0, 0]),
        Witness::Number(Measured { measure, number }) => (7, [measure as u64, number, 0, 0, 0]),
    };
    Found { kind, numbers }
}

fn record(out: &mut Bytes, answer: u8, place: u8, test: usize, found: Found)
    ensures { Gathers out.old out.new }
{
    out.byte(answer);
    out.byte(place);
    out.small(test);
    out.byte(found.kind);
    for number in found.numbers {
        out.word(number);
    }
}

// A port for a list that has so many.
fn full(count: usize) -> Found {
    Found {
        kind: 8,
        numbers: [count as u64, 0, 0, 0, 0],
    }
}

// What is said of a command; nothing of none.
pub fn written(out: &mut Bytes, why: LogExplanation)
    ensures { Gathers out.old out.new }
{
    match why {
        LogExplanation::NoCommand => {}
        LogExplanation::Unknown => record(out, 11, LOG, 1, NOTHING),
        LogExplanation::Cut => record(out, 12, LOG, 2, NOTHING),
        LogExplanation::Full(count) => record(out, 9, LOG, 3, full(count)),
        LogExplanation::Command(Ok(())) => record(out, 0, 0, 0, NOTHING),
        LogExplanation::Command(Err(refusal)) => {
            let answer = u8::from(refusal.error);
            record(
                out,
                answer,
                refusal.place as u8,
                refusal.test,
                numbered(refusal.witness),
            );
        }
    }
}

// Plays the log and writes the explanation of each command, 44 bytes, on the kernel before it, while there is room. Gives how many bytes were written.
pub fn nobrighi_explained(log: &[u8], out: &mut [u8]) -> usize
    ensures { result ≤ length out.old }
{
    let mut out = Bytes::new(out);
    let mut player = start();
    for _ in 0..log.len() {
        if out.free() < RECORD {
            break;
        }
        written(&mut out, why_next(&player, log));
        if player.step(log).is_none_or(|answer| 10 < answer) {
            break;
        }
    }
    out.len()
}
