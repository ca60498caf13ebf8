//! Words: lists of letters.
ghost use Rattle.std.specs.Prelude.{◌≡◌, [], ◌∷◌, ◌++◌, OnOk, OnErr, IfOk};

use crate::letter::Letter;
use lie_field::Field;
use std::alloc::{AllocError, Global};
use std::marker::Model;

/// A word, seen as the list of its letters.
#[derive(Debug, Drop)]
pub struct Word {
    letters: Vec<Letter>,
}

impl Model for Word {
    ghost use Rattle.std.specs.Prelude.{List};
    ghost use Rattle.lie_letters.specs.declared.letter.Letter.{Letter};

    ghost Value = { List Letter };

    ghost view = { λ w. w.letters.items };
}

impl Word {
    ghost use Rattle.lie_letters.specs.Spelled.{IsWordOverField, reversed};

    /// The empty word.
    pub fn new(alloc: Global) -> Word
        ensures { result ≡ [] }
    {
        Word {
            letters: Vec::new(alloc),
        }
    }

    /// Writes a letter behind the word. Where no memory is left the word stays as it was.
    pub fn push(&mut self, letter: Letter) -> Result<(), AllocError>
        ensures pushed { OnOk result (self.new ≡ self.old ++ letter ∷ []) }
        ensures left { OnErr result (self.new ≡ self.old) }
    {
        self.letters.push(letter)?;
        Ok(())
    }

    /// The letters, in order.
    pub fn letters(&self) -> &[Letter]
        ensures { result.now ≡ self.now }
    {
        self.letters.as_slice()
    }

    /// The joined word: this one, then `b`.
    pub fn joined(&self, alloc: Global, b: &Word) -> Result<Word, AllocError>
        ensures { IfOk result (λ w. w ≡ self.now ++ b.now) }
    {
        let mut word = Word::new(alloc);
        word.append(&self.letters)?;
        word.append(&b.letters)?;
        Ok(word)
    }

    // Writes letters behind the word.
    fn append(&mut self, letters: &[Letter]) -> Result<(), AllocError>
        ensures { OnOk result (self.new ≡ self.old ++ letters.now) }
    {
        for letter in letters {
            self.push(letter.copied())?;
        }
        Ok(())
    }

    /// The reversed word: the inverted letters in reverse order.
    pub fn reversed(&self, alloc: Global, field: &Field) -> Result<Word, AllocError>
        requires { IsWordOverField field.now self.now }
        ensures { IfOk result (λ w. w ≡ reversed field.now self.now) }
    {
        let mut word = Word::new(alloc);
        for letter in self.letters.iter().rev() {
            word.push(letter.inverse(field))?;
        }
        Ok(word)
    }
}
