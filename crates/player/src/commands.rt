// The player: the kernel, the two pending lists and the place in the log.
ghost use Rattle.std.specs.Prelude.{◌≡◌, ◌≤◌, [], length};
ghost use Rattle.model.specs.Answers.{answer_number};
ghost use Rattle.model.specs.Interface.{port_list};
ghost use Rattle.player.specs.Played.{addition, fresh, with_port};
ghost use Rattle.player.specs.Players.{Plays, Steps, detail_in, player_after};

use crate::log;
use kernel::Kernel;
use model::{Error, Port, PortList};
use records::answer_number;

// at: the next byte of the log; answered: the answers written last; detail: of the last command, the identity that
// an accepted insert issued or the count that an accepted compaction removed, else 0.
#[derive(Clone, Copy)]
pub struct Player {
    pub kernel: Kernel,
    pub dependencies: PortList,
    pub provisions: PortList,
    pub at: usize,
    pub answered: usize,
    pub detail: u64,
}

impl Player {
    // Plays on until the log ends, the answers are full, a byte outside 01 to 10 (11) or cut operands (12). Each command is played on the
    // kernel in place: handed over and back by value, its 23 KB would be copied three times a command.
    pub fn play_on(&mut self, log: &[u8], answers: &mut [u8])
        ensures plays { Plays self.old log.now answers.old self.new answers.new }
        ensures answered_in_bounds { self.new.answered ≤ length answers.old }
    {
        let mut at = self.at;
        let mut answered = 0;
        let mut detail = 0;
        while at < log.len() {
            if answers.len() <= answered {
                break;
            }
            detail = 0;
            let byte = log[at];
            let length = log::length_of(byte);
            if !log::is_command(byte) {
                answers[answered] = 11;
                answered += 1;
                break;
            }
            let Some(operands) = log[at + 1..].get(..length) else {
                answers[answered] = 12;
                answered += 1;
                break;
            };
            let id = log::identity(operands);
            let answer = match byte {
                0x01 => answer_number(add(&mut self.dependencies, log::port_at(operands, 0))),
                0x02 => answer_number(add(&mut self.provisions, log::port_at(operands, 0))),
                0x03 => {
                    let issued = self
                        .kernel
                        .insert_in(log::parent(operands), self.dependencies, self.provisions);
                    self.dependencies.count = 0;
                    self.provisions.count = 0;
                    detail = detail_of(issued);
                    answer_number(issued)
                }
                0x04 => answer_number(self.kernel.begin_in(id)),
                0x05 => answer_number(self.kernel.finish_in(id)),
                0x06 => answer_number(self.kernel.leave_in(id)),
                0x07 => answer_number(self.kernel.leave_if_changed_in(id)),
                0x08 => answer_number(self.kernel.retire_in(id)),
                0x09 => answer_number(self.kernel.begin_cleanup_in(id)),
                0x0A => answer_number(self.kernel.finish_cleanup_in(id)),
                0x0B => answer_number(self.kernel.remove_in(id)),
                0x0C => {
                    let removed = self.kernel.compact_bindings_in();
                    detail = detail_of(removed);
                    answer_number(removed)
                }
                0x0D => {
                    let removed = self.kernel.compact_declarations_in();
                    detail = detail_of(removed);
                    answer_number(removed)
                }
                0x0E => answer_number(
                    self.kernel
                        .declare_provision_in(id, log::port_at(operands, 1)),
                ),
                0x0F => answer_number(
                    self.kernel
                        .release_provision_in(id, log::port_at(operands, 1)),
                ),
                _ => {
                    let configured = self
                        .kernel
                        .configure_pending_dependencies_in(id, self.dependencies);
                    self.dependencies.count = 0;
                    self.provisions.count = 0;
                    answer_number(configured)
                }
            };
            answers[answered] = answer;
            answered += 1;
            at += 1 + length;
        }
        self.at = at;
        self.answered = answered;
        self.detail = detail;
    }

    // Plays the next command; its answer, if the log has one. A byte outside 01 to 10 (11) and cut operands (12) leave the player where it is.
    pub fn step(&mut self, log: &[u8]) -> Option<u8>
        ensures { Steps self.old log.now self.new result }
    {
        let mut answers = [0];
        self.play_on(log, &mut answers);
        (self.answered != 0).then_some(answers[0])
    }
}

#[tactic(auto, unfolding(model::specs::Lists::padded))]
fn empty_list() -> PortList
    ensures { result ≡ port_list [] }
{
    PortList {
        ports: [records::blank_port(); 32],
        count: 0,
    }
}

// The empty kernel, before the log's first byte.
#[tactic(auto, unfolding(crate::specs::Played::state_after, crate::specs::Players::last_detail))]
pub fn start() -> Player
    ensures { result ≡ player_after fresh [] }
{
    Player {
        kernel: Kernel::new(),
        dependencies: empty_list(),
        provisions: empty_list(),
        at: 0,
        answered: 0,
        detail: 0,
    }
}

// The port after the others; a list of 32 takes no more.
#[tactic(auto, unfolding(crate::specs::Played::addition, crate::specs::Played::with_port))]
fn add(list: &mut PortList, port: Port) -> Result<(), Error>
    ensures answer { answer_number result ≡ addition list.old }
    ensures added { list.new ≡ with_port list.old port }
{
    if 32 <= list.count {
        return Err(Error::Capacity);
    }
    list.ports[list.count] = port;
    list.count += 1;
    Ok(())
}

// The identity that an insert issued, or the count that a compaction removed; 0 where they are refused.
fn detail_of(answer: Result<usize, Error>) -> u64
    ensures { result ≡ detail_in answer }
{
    answer.unwrap_or(0) as u64
}

// play_on, of a player by value.
pub fn play(mut player: Player, log: &[u8], answers: &mut [u8]) -> Player
    ensures plays { Plays player log.now answers.old result answers.new }
    ensures answered_in_bounds { result.answered ≤ length answers.old }
{
    player.play_on(log, answers);
    player
}
