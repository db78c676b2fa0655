// Words, numbers and doubles of a line.
ghost use Rattle.std.specs.Prelude.{◌+◌, ◌≤◌, length};
ghost use Rattle.iisph_words.specs.Texts.{HasRoom, Adds};
ghost use Rattle.iisph_words.specs.Words.{pair_text, double_text_width, double_text, doubles_text};
ghost use Rattle.iisph_words.specs.Words.{kind_word, ending_word};

use crate::text::Text;
use scene_format::Kind;

impl Text<'_> {
    // The word that a particle's line begins with.
    pub fn put_kind(&mut self, kind: Kind)
        requires { HasRoom self.old (length (kind_word kind)) }
        ensures { Adds self.old (kind_word kind) self.new }
    {
        match kind {
            Kind::Fluid => self.put_word(b"fluid "),
            Kind::Boundary => self.put_word(b"wall "),
        }
    }

    // The word for the ending with this number, which is the C interface's.
    pub fn put_ending_word(&mut self, number: u64)
        requires { HasRoom self.old (length (ending_word number)) }
        ensures { Adds self.old (ending_word number) self.new }
    {
        match number {
            0 => self.put_word(b"unswept "),
            1 => self.put_word(b"settled "),
            _ => self.put_word(b"ranout "),
        }
    }

    // Two whole numbers, with a space between.
    pub fn put_pair(&mut self, m: u64, n: u64)
        requires { HasRoom self.old (length (pair_text m n)) }
        ensures { Adds self.old (pair_text m n) self.new }
    {
        self.put_decimal(m);
        self.put_byte(b' ');
        self.put_decimal(n);
    }

    // A space, then the double's bits.
    pub fn put_double(&mut self, x: f64)
        requires { HasRoom self.old double_text_width }
        ensures { Adds self.old (double_text x) self.new }
    {
        self.put_byte(b' ');
        self.put_hex(x);
    }

    // w elements of a list, from the k-th on.
    pub fn put_doubles(&mut self, xs: &[f64], k: usize, w: usize)
        requires w_in_bounds { k + w ≤ length xs.now }
        requires w_in_bounds_2 { HasRoom self.old (length (doubles_text xs.now k w)) }
        ensures { Adds self.old (doubles_text xs.now k w) self.new }
    {
        for x in &xs[k..k + w] {
            self.put_double(*x);
        }
    }
}
