//! What holds of all words, as the contracts of functions that do nothing.
ghost use Rattle.std.specs.Prelude.{◌≡◌, ℕ, ◌<◌, ◌^◌, List, Some, decimal};
ghost use Rattle.json_lines.specs.Meaning.{number_of};
ghost use Rattle.spelled_words.specs.Words.{spelling, bytes_of, AreBytes};

/// Each number has one word, and each number word is that of one number.
pub fn number_words()
    ensures read { (word : List ℕ) (n : ℕ) → number_of word ≡ Some n → (word ≡ decimal n) × (n < 2 ^ 64) }
    ensures written { (n : ℕ) → n < 2 ^ 64 → number_of (decimal n) ≡ Some n }
{}

/// Each list of bytes has one spelling, and each word that is read is that of its bytes.
pub fn spellings()
    ensures read { (word bytes : List ℕ) → bytes_of word ≡ Some bytes → (word ≡ spelling bytes) × AreBytes bytes }
    ensures written { (bytes : List ℕ) → AreBytes bytes → bytes_of (spelling bytes) ≡ Some bytes }
{}
