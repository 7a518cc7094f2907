// A page of its own, run by `run_with`.
use crate::boards::{BoardPage, run_with};
use std::test::Fail;
use text::{Page, put_number};

// The page of how many words a board has.
struct Length;

impl BoardPage<46> for Length {
    ghost use Rattle.std.specs.Prelude.{length, [], ◌∷◌, ◌++◌};
    ghost use Rattle.text.specs.Text.{decimal};

    ghost shown = { λ _ b. decimal (length b) ++ (10 ∷ []) };

    fn of_board(&self, board: &[u32]) -> Page<46> {
        let mut page = Page::new();
        put_number(&mut page, board.len() as u64, 10);
        page
    }
}

// Two words, and a byte less, which row 15 refuses.
#[test]
fn the_page_of_what_was_read(rt: HostRuntime) -> Result<(), Fail> {
    let bytes = [1u8, 0, 0, 0, 2, 0, 0, 0];
    for (count, page) in [(8, "2\n"), (7, "bad 15 7\n")] {
        let mut out = [0u8; 46];
        let mut from: &[u8] = &bytes[..count];
        let mut to: &mut [u8] = &mut out;
        assert!(rt; run_with(&Length, &mut from, &mut to)?);
        assert_eq!(rt; &out[..page.len()], page.as_bytes());
        assert_eq!(rt; out[page.len()], 0);
    }
    Ok(())
}
