// Lines of a text and of numbers, put into a page.
ghost use Rattle.std.specs.Prelude.{◌≡◌, [], ◌∷◌, ◌++◌, ◌+◌, ◌≤◌, length};
ghost use Rattle.text.specs.Text.{decimal, line};

use crate::{Page, put_field, put_number};

// Puts a line of a text and one number: at most 22 bytes after the text.
#[tactic(auto, unfolding(crate::specs::Text::line))]
pub fn number_line<const N: usize>(page: &mut Page<N>, text: &[u8], x: u64)
    requires { length page.old.items + length text.now + 22 ≤ N }
    ensures put { page.new.items ≡ page.old.items ++ line (text.now ∷ decimal x ∷ []) }
    ensures most { length page.new.items ≤ length page.old.items + length text.now + 22 }
{
    put_field(page, text, b' ');
    put_number(page, x, b'\n');
}

// Puts a line of a text and two numbers: at most 43 bytes after the text.
#[tactic(auto, using(crate::proofs::Fields::put_more, crate::proofs::Fields::put_last))]
pub fn pair_line<const N: usize>(page: &mut Page<N>, text: &[u8], x: u64, y: u64)
    requires { length page.old.items + length text.now + 43 ≤ N }
    ensures put { page.new.items ≡ page.old.items ++ line (text.now ∷ decimal x ∷ decimal y ∷ []) }
    ensures most { length page.new.items ≤ length page.old.items + length text.now + 43 }
{
    put_field(page, text, b' ');
    put_number(page, x, b' ');
    put_number(page, y, b'\n');
}
