// The page of a program, put together in fixed memory: fields, each with the byte that ends it.
#![tactic(auto)]

pub mod lines;

ghost use Rattle.std.specs.Prelude.{◌≡◌, [], ◌∷◌, ◌++◌, ◌+◌, ◌^◌, ◌≤◌, ◌<◌, length};
ghost use Rattle.text.specs.Text.{decimal};
ghost use Rattle.text.specs.Buffer.{Put};

use arrayvec::ArrayVec;

// A page of at most N bytes. It always has room, and `write!` does not promise to succeed where there is: so its bytes are put by the functions here.
pub type Page<const N: usize> = ArrayVec<u8, N>;

// Puts a field and the byte that ends it.
pub fn put_field<const N: usize>(page: &mut Page<N>, field: &[u8], end: u8)
    requires { length page.old.items + length field.now < N }
    ensures { page.new.items ≡ page.old.items ++ (field.now ++ (end ∷ [])) }
{
    page.try_extend_from_slice(field).unwrap();
    page.push(end);
}

// Puts a number in decimal, which has at most 20 digits, and 10 where it fits a word; and the byte that ends it.
pub fn put_number<const N: usize>(page: &mut Page<N>, x: u64, end: u8)
    requires word { x < 2 ^ 32 → length page.old.items + 10 < N }
    requires more { 2 ^ 32 ≤ x → length page.old.items + 20 < N }
    ensures put { page.new.items ≡ page.old.items ++ (decimal x ++ (end ∷ [])) }
    ensures most { length page.new.items ≤ length page.old.items + 21 }
    ensures word { x < 2 ^ 32 → length page.new.items ≤ length page.old.items + 11 }
{
    let mut digits = [0u8; 20];
    let count = io::decimal(x, &mut digits);
    put_field(page, &digits[..count], end);
}

// Puts a page at the start of a lent buffer, and answers its length.
pub fn put_page<const N: usize>(out: &mut [u8], page: &Page<N>) -> usize
    requires { N ≤ length out.old }
    ensures { Put out.old 0 page.now.items out.new result }
{
    let size = page.len();
    out[..size].copy_from_slice(page.as_slice());
    size
}
