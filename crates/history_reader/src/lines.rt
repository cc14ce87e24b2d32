// What is left of a text, line by line.
ghost use Rattle.std.specs.Prelude.{◌≡◌, true, length, MatchOption};
ghost use Rattle.history_text.specs.Parts.{lacks};
ghost use Rattle.history_reader.specs.inside.Lines.{IsLineOf, begins, ends_so};

use history_text::cut;
use std::marker::Model;

// What is left of a text, seen by contracts as its bytes.
#[derive(Drop)]
pub(crate) struct Lines<'a> {
    text: &'a [u8],
}

impl<'a> Model for Lines<'a> {
    ghost use Rattle.std.specs.Prelude.{List, ℕ};

    ghost Value = { List ℕ };

    ghost use Rattle.history_reader.specs.inside.Lines.{lines_left};

    ghost view = { lines_left };
}

impl<'a> Lines<'a> {
    pub(crate) fn new(text: &'a [u8]) -> Lines<'a>
        ensures { result ≡ text.now }
    {
        Lines { text }
    }

    // The next line, without its end.
    pub(crate) fn next(&mut self) -> Option<&'a [u8]>
        ensures { MatchOption result (lacks 10 self.old ≡ true) (λ line. IsLineOf self.old line.now self.new) }
    {
        let (line, rest) = cut(self.text, b'\n')?;
        self.text = rest;
        Some(line)
    }

    // Whether the text that is left begins with these bytes.
    pub(crate) fn begins(&self, word: &[u8]) -> bool
        ensures { result ≡ begins word.now self.now }
    {
        self.text.starts_with(word)
    }

    // Whether an entry's lines end here.
    pub(crate) fn end_entry(&self) -> bool
        ensures { result ≡ ends_so self.now }
    {
        match self.text {
            [] => true,
            _ => self.begins(b"entry "),
        }
    }

    // How many bytes are left.
    pub(crate) fn left(&self) -> usize
        ensures { result ≡ length self.now }
    {
        self.text.len()
    }
}
