// A line that is written: words and numbers, one behind the other.
ghost use Rattle.std.specs.Prelude.{◌+◌, ◌≤◌, ◌++◌, length};
ghost use Rattle.wording.specs.Text.{ascii, decimal};
ghost use Rattle.wording.specs.Putting.{Put};

use itoa::Buffer;

// The list that is written to, and how far.
#[derive(Drop)]
pub struct Line<'a> {
    pub to: &'a mut [u8],
    pub at: usize,
}

impl Line<'_> {
    pub fn put(&mut self, text: &[u8])
        requires { self.old.at + length text.now ≤ length self.old.to.now }
        ensures { Put text.now self.old self.new }
    {
        let end = self.at + text.len();
        self.to[self.at..end].copy_from_slice(text);
        self.at = end;
    }

    pub fn number(&mut self, n: u64)
        requires { self.old.at + 20 ≤ length self.old.to.now }
        ensures { Put (decimal n) self.old self.new }
    {
        let mut digits = Buffer::new();
        self.put(digits.format(n).as_bytes());
    }

    // A word, and a number behind it.
    pub fn worded(&mut self, word: &[u8], n: u64)
        requires { self.old.at + length word.now + 20 ≤ length self.old.to.now }
        ensures { Put (word.now ++ decimal n) self.old self.new }
    {
        self.put(word);
        self.number(n);
    }

    // A word, and two numbers behind it.
    pub fn paired(&mut self, word: &[u8], n: u64, m: u64)
        requires { self.old.at + length word.now + 41 ≤ length self.old.to.now }
        ensures { Put (word.now ++ decimal n ++ ascii " " ++ decimal m) self.old self.new }
    {
        self.worded(word, n);
        self.worded(b" ", m);
    }
}
