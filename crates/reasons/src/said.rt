// Why a command of a log is refused: the log's own refusals, or the kernel's explained.
ghost use Rattle.std.specs.Prelude.{◌≡◌, ◌≤◌, ◌-◌, [], ◌∷◌, false, slice_index_or};
ghost use Rattle.explain.specs.Explanations.{command_of};
ghost use Rattle.player.specs.Played.{Item, commands_in, is_unknown, meanings, turns};
ghost use Rattle.player.specs.Players.{state_of};
ghost use Rattle.reasons.specs.Reasons.{addition_said, said_in, said_of};

use explain::{Call, explain};
use model::{PortList, Refusal};
use player::{Player, log};

// What is said of a log's command: the log has none of this number; a byte outside 01 to 10 (11); operands that are cut (12); a port for a list that has
// so many (9); a command of the kernel, or a port that is added, which is accepted.
#[derive(Clone, Copy)]
pub enum LogExplanation {
    NoCommand,
    Unknown,
    Cut,
    Full(usize),
    Command(Result<(), Refusal>),
}

// A port for a list.
fn addition_to(list: &PortList) -> LogExplanation
    ensures { result ≡ addition_said list.now }
{
    if 32 <= list.count {
        return LogExplanation::Full(list.count);
    }
    LogExplanation::Command(Ok(()))
}

// The kernel's command of a byte from 03 to 10, with these operands and the pending lists.
pub fn call_of(player: &Player, byte: u8, operands: &[u8]) -> Call
    ensures { is_unknown byte ≡ false → 3 ≤ byte → commands_in (slice_index_or (meanings (state_of player.now) operands.now) (byte - 1) Item.unknown) ≡ command_of result ∷ [] }
{
    let id = log::identity(operands);
    match byte {
        0x03 => Call::Insert {
            parent: log::parent(operands),
            dependencies: player.dependencies,
            provisions: player.provisions,
        },
        0x04 => Call::Begin { id },
        0x05 => Call::Finish { id },
        0x06 => Call::Leave { id },
        0x07 => Call::LeaveIfChanged { id },
        0x08 => Call::Retire { id },
        0x09 => Call::BeginCleanup { id },
        0x0A => Call::FinishCleanup { id },
        0x0B => Call::Remove { id },
        0x0C => Call::CompactBindings,
        0x0D => Call::CompactDeclarations,
        0x0E => Call::DeclareProvision {
            id,
            port: log::port_at(operands, 1),
        },
        0x0F => Call::ReleaseProvision {
            id,
            port: log::port_at(operands, 1),
        },
        _ => Call::ConfigurePendingDependencies {
            id,
            dependencies: player.dependencies,
        },
    }
}

// Of a command byte with all its operands.
fn why_item(player: &Player, byte: u8, operands: &[u8]) -> LogExplanation
    ensures { is_unknown byte ≡ false → result ≡ said_of (state_of player.now) (slice_index_or (meanings (state_of player.now) operands.now) (byte - 1) Item.unknown) }
{
    match byte {
        0x01 => addition_to(&player.dependencies),
        0x02 => addition_to(&player.provisions),
        _ => LogExplanation::Command(explain(&player.kernel, call_of(player, byte, operands))),
    }
}

// Of the command at the player's place in the log.
pub fn why_next(player: &Player, log: &[u8]) -> LogExplanation
    ensures { result ≡ said_in (state_of player.now) (turns (state_of player.now) log.now) 0 }
{
    let Some(&byte) = log.get(player.at) else {
        return LogExplanation::NoCommand;
    };
    if !log::is_command(byte) {
        return LogExplanation::Unknown;
    }
    let length = log::length_of(byte);
    let Some(operands) = log[player.at + 1..].get(..length) else {
        return LogExplanation::Cut;
    };
    why_item(player, byte, operands)
}
