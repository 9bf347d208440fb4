// The arguments of a program that is asked about logs: by pairs, a log and a number.
use crate::logs::{About, argument, argument_count};
use crate::made::identity_of;
use crate::words::number;
use std::env::Env;
use std::io::Stderr;

// Hands each pair to the program: the log's name, the word that is the number, empty if there is none, and the number. Of a word that is none a line is said.
pub fn each_pair<F: Fn(&[u8], &[u8], usize)>(rt: &impl Env, stderr: Stderr, program: &[u8], ask: F)
    requires { F.IsAlwaysCallable ask }
{
    for i in 0..argument_count(rt) / 2 {
        let mut name = [0; 4096];
        let name = argument(rt, 2 * i + 1, &mut name);
        let mut word = [0; 65536];
        let word = argument(rt, 2 * i + 2, &mut word);
        match number(word) {
            Some(number) => ask(name, word, identity_of(number)),
            None => About {
                program,
                name: word,
            }
            .say(stderr, b" is no number"),
        }
    }
}
