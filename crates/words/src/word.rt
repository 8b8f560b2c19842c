// What one word of a program says, and how it is written as that word. A trait of our own, since its law ties both ways together.
ghost use Rattle.std.specs.Prelude.{◌≡◌, ℕ, ◌<◌, ◌^◌, Some, Option};
ghost use Rattle.words.specs.ReadBack.{ReadBack};

pub trait Word: Sized {
    // The word that an item is written as.
    ghost spelled: { Self → ℕ };

    // The item that is read from a word.
    ghost read: { ℕ → Option Self };

    fn from_word(word: u32) -> Option<Self>
        ensures { result ≡ read word };

    fn to_word(self) -> u32
        ensures { result ≡ spelled self };

    // Reads a word as `from_word` does, and adds what the law says of it.
    final fn decode(word: u32) -> Option<Self>
        ensures is { result ≡ read word }
        ensures inverse { ReadBack spelled word result }
    {
        Self::from_word(word)
    }

    // Writes an item as `to_word` does, and adds what the law says of it.
    final fn encode(self) -> u32
        ensures is { result ≡ spelled self }
        ensures inverse { read result ≡ Some self }
    {
        self.to_word()
    }

    // An item is read from a word exactly when it is written as that word.
    ghost inverse: { (w : ℕ) → w < 2 ^ 32 → ReadBack spelled w (read w) };
}
