// A text that is being written into a list that is lent.
ghost use Rattle.std.specs.Prelude.{◌≡◌, length, [], ◌∷◌};
ghost use Rattle.iisph_words.specs.Texts.{HasRoom, Adds};

// The list, and where the text goes on in it, which is how long it is.
#[derive(Drop)]
pub struct Text<'a> {
    pub(crate) out: &'a mut [u8],
    pub(crate) at: usize,
}

impl<'a> Text<'a> {
    // A text that begins in front of a list.
    pub fn new(out: &'a mut [u8]) -> Text<'a>
        ensures same { result.out.ghost_name ≡ out.entry.ghost_name }
        ensures begun { (result.out.now ≡ out.old) × (result.at ≡ 0) }
    {
        Text { out, at: 0 }
    }

    // One byte of text.
    pub fn put_byte(&mut self, byte: u8)
        requires { HasRoom self.old 1 }
        ensures { Adds self.old (byte ∷ []) self.new }
    {
        self.out[self.at] = byte;
        self.at += 1;
    }

    // Any bytes, as they are.
    pub fn put_word(&mut self, word: &[u8])
        requires { HasRoom self.old (length word.now) }
        ensures { Adds self.old word.now self.new }
    {
        let next = self.at + word.len();
        self.out[self.at..next].copy_from_slice(word);
        self.at = next;
    }

    // How long the text is.
    pub fn len(&self) -> usize
        ensures { result ≡ self.now.at }
    {
        let end = self.at;
        end
    }
}
