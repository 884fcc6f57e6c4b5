// Listings: `listing::respond` on an input of the program `tiles`, and what that program should print. A case is two little-endian words
// (the lengths of the input and of the text), the input's bytes, and the text's.
use crate::kind::{Case, Words};

// The words of a case that say more than the length of its input.
#[derive(Clone, Copy)]
pub struct Listing {
    text: u32,
}

impl Case for Listing {
    fn words() -> usize {
        2
    }

    fn new(words: &Words) -> Self {
        Self { text: words[1] }
    }

    fn answer_length(&self) -> usize {
        self.text as usize
    }

    fn is_right(&self, input: &[u8], want: &[u8]) -> bool {
        // An array, as the words of a case are (`kind`).
        let mut out = [0u8; 4096];
        let n = listing::respond(input, &mut out);
        &out[..n] == want
    }
}
