// The answers in the rules' numbers.
ghost use Rattle.std.specs.Prelude.{◌≡◌};
ghost use Rattle.model.specs.Answers.{answer_number};

use model::Error;

// 0 for done, with whatever value, else the refusal's number.
pub fn answer_number<T: Drop>(answer: Result<T, Error>) -> u8
    ensures { result ≡ answer_number answer }
{
    answer.map_or_else(u8::from, |_| 0)
}
