// How a time is made up, as a code, two words and the six of the parts.
ghost use Rattle.std.specs.Prelude.{◌≡◌};
ghost use Rattle.replies.specs.Replies.{made_up_code, made_up_words, parts_after};

use crate::reply::{give, give_refusal};
use answers::MadeUp;
use refusals::Refusal;

// The code of the answer, its numbers being put into the words, and the parts, where it has any, into theirs.
pub fn of_made_up(made: Result<MadeUp, Refusal>, parts: &mut [u64; 6], words: &mut [u64; 2]) -> u32
    ensures { (result ≡ made_up_code made) × ((words.new ≡ made_up_words made) × (parts.new ≡ parts_after made parts.old)) }
{
    match made {
        Ok(MadeUp::Parts(found, reason)) => {
            *parts = found.six();
            give(0, u64::from(reason.number()), 0, words)
        }
        Ok(MadeUp::Spent) => give(2, 0, 0, words),
        Err(refusal) => give_refusal(refusal, words),
    }
}
