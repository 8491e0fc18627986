// A lent buffer that is written from its start on, word after word.
ghost use Rattle.std.specs.Prelude.{◌≡◌, ◌∷◌, []};
ghost use Rattle.report.specs.Decimal.{decimal};
ghost use Rattle.report.specs.Pages.{HasRoom, Written};

use crate::digits::put_digits;

// The bytes of the text before `at` are written.
#[derive(Drop)]
pub struct Page<'a> {
    text: &'a mut [u8],
    at: usize,
}

impl<'a> Page<'a> {
    pub fn new(text: &'a mut [u8]) -> Page<'a>
        ensures same_text { result.text.ghost_name ≡ text.entry.ghost_name }
        ensures text { result.text.now ≡ text.old }
        ensures at { result.at ≡ 0 }
    {
        Page { text, at: 0 }
    }

    // How many bytes are written.
    pub fn len(&self) -> usize
        ensures { result ≡ self.now.at }
    {
        self.at
    }

    #[tactic(auto, using(crate::proofs::Writing::put_byte))]
    pub fn put_byte(&mut self, b: u8)
        requires { HasRoom self.old (b ∷ []) }
        ensures { Written self.old (b ∷ []) self.new }
    {
        self.text[self.at] = b;
        self.at += 1;
    }

    #[tactic(auto, using(crate::proofs::Writing::put_copied))]
    pub fn put_word(&mut self, word: &[u8])
        requires { HasRoom self.old word.now }
        ensures { Written self.old word.now self.new }
    {
        let end = self.at + word.len();
        self.text[self.at..end].copy_from_slice(word);
        self.at = end;
    }

    // A number in fewest digits.
    pub fn put_decimal(&mut self, n: u64)
        requires { HasRoom self.old (decimal n) }
        ensures { Written self.old (decimal n) self.new }
    {
        self.at = put_digits(self.text, self.at, n);
    }
}
