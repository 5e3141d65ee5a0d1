//! What a core answers to what its circuits heard.

ghost use Rattle.std.specs.Prelude.{◌≡◌};
ghost use Rattle.lat_lines.specs.circuits.Hears.{hearing_shown};
ghost use Rattle.lat_lines.specs.Answers.{IsPlain};
ghost use Rattle.lat_lines.specs.AnswerValues.{answer_shown};

use crate::circuits::Hearing;
use lat_base::Answer;

/// What a core answers to a circuit message, by what became of it at its circuits.
pub fn hearing_answer(hearing: Hearing) -> Answer
    ensures value { answer_shown result ≡ hearing_shown hearing }
    ensures plain { IsPlain result }
{
    match hearing {
        Hearing::Circuit(heard) => Answer::Circuit(heard),
        Hearing::Started(id) => Answer::Started(id),
        Hearing::Refused => Answer::StartRefused,
    }
}
