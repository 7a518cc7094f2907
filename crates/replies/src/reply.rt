// The answers of the calls as a code and two words. The codes are those of include/zuzgravel.h, numbers since a C function gives back one.
ghost use Rattle.std.specs.Prelude.{[], ◌∷◌, ◌≡◌};
ghost use Rattle.refusals.specs.Refusals.{row_number};
ghost use Rattle.replies.specs.Replies.{outcome_code, outcome_words, answer_code, answer_words};

use answers::Answer;
use refusals::Refusal;

// The code of an outcome, its numbers being put into the words.
pub fn of_outcome(outcome: Result<u64, Refusal>, words: &mut [u64; 2]) -> u32
    ensures { (result ≡ outcome_code outcome) × (words.new ≡ outcome_words outcome) }
{
    match outcome {
        Ok(value) => give(0, value, 0, words),
        Err(refusal) => give_refusal(refusal, words),
    }
}

// The code of an answer, its numbers being put into the words.
pub fn of_answer(answer: Result<Answer, Refusal>, words: &mut [u64; 2]) -> u32
    ensures { (result ≡ answer_code answer) × (words.new ≡ answer_words answer) }
{
    match answer {
        Ok(Answer::Times(passes)) => give(0, u64::from(passes), 0, words),
        Ok(Answer::Late(task, passes)) => give(1, u64::from(task), u64::from(passes), words),
        Ok(Answer::Spent) => give(2, 0, 0, words),
        Err(refusal) => give_refusal(refusal, words),
    }
}

// The code of a refusal, with its number and its place in the words.
pub fn give_refusal(refusal: Refusal, words: &mut [u64; 2]) -> u32
    ensures { (result ≡ 3) × (words.new ≡ row_number refusal.row ∷ refusal.place ∷ []) }
{
    give(3, refusal.row.number() as u64, refusal.place as u64, words)
}

// The code, with the two numbers in the words.
pub fn give(code: u32, first: u64, second: u64, words: &mut [u64; 2]) -> u32
    ensures { (result ≡ code) × (words.new ≡ first ∷ second ∷ []) }
{
    *words = [first, second];
    code
}
