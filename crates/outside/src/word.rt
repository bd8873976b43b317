//! A text, which contracts see as its bytes.
ghost use Rattle.std.specs.Prelude.{◌≡◌, IfOk};

use duty_core::NoMemory;
use std::alloc::Global;
use std::marker::Model;

/// A text of its own. A contract sees it as the list of its UTF-8 bytes.
#[derive(Drop)]
pub struct Word {
    text: String,
}

impl Model for Word {
    ghost use Rattle.std.specs.Prelude.{List, ℕ, string_bytes};

    ghost Value = { List ℕ };

    ghost view = { λ w. string_bytes w.text };
}

impl Word {
    /// A word that holds a copy of `text`. `NoMemory` where there is no memory for the copy.
    pub fn new(alloc: Global, text: &str) -> Result<Word, NoMemory>
        ensures { IfOk result (λ word. word ≡ text.now) }
    {
        Ok(Word {
            text: text.to_string(alloc)?,
        })
    }

    /// The text.
    pub fn as_str(&self) -> &str
        ensures { result.now ≡ self.now }
    {
        self.text.as_str()
    }

    /// The text's UTF-8 bytes.
    pub fn as_bytes(&self) -> &[u8]
        ensures { result.now ≡ self.now }
    {
        self.text.as_bytes()
    }

    /// A second word of the same text. `NoMemory` where there is no memory for it.
    pub fn copy(&self, alloc: Global) -> Result<Word, NoMemory>
        ensures { IfOk result (λ word. word ≡ self.now) }
    {
        Word::new(alloc, self.as_str())
    }
}

#[cfg(test)]
mod tests {
    use super::*;
    use std::test::Fail;

    #[test]
    fn makes_a_word(rt: HostRuntime) -> Result<(), Fail> {
        let word = Word::new(rt.alloc(), "plan")?;
        assert_eq!(rt; word.as_str(), "plan");
        Ok(())
    }

    #[test]
    fn copies_a_text(rt: HostRuntime) -> Result<(), Fail> {
        let word = Word::new(rt.alloc(), "Zürich")?;
        let copy = word.copy(rt.alloc())?;
        assert_eq!(rt; copy.as_str(), "Zürich");
        assert_eq!(rt; copy.as_bytes(), b"Z\xc3\xbcrich".as_slice());
        Ok(())
    }
}
