//! The laws of stored names: the contract of each of these functions is a law, and its body is empty.

ghost use Rattle.std.specs.Prelude.{◌≡◌, ◌<◌, ◌≤◌, ◌^◌, ◌++◌, [], ◌∷◌, false, ℕ, List, All, encode_utf8};
ghost use Rattle.std.specs.Char.{IsScalar};
ghost use Rattle.std.specs.Char.Escape.{encode_utf16};
ghost use Rattle.std.specs.Str.{StartsWithNoChar};
ghost use Rattle.name_defs.specs.Items.{Character, Byte, Surrogate, begins_pair, byte_items, unit_items};
ghost use Rattle.name_defs.specs.Texts.{IsShown, IsShownInName, bytes_text, units_text, word_text};

/// Names of bytes that print as one text are one name.
#[tactic(auto, using(crate::proofs::OneSpelling::one_spelling_of_bytes))]
pub fn one_spelling_of_bytes()
    ensures { (a b : List ℕ) → bytes_text a ≡ bytes_text b → a ≡ b }
{}

/// Names of units that print as one text are one name.
#[tactic(auto, using(crate::proofs::OneSpelling::one_spelling_of_units))]
pub fn one_spelling_of_units()
    ensures { (a b : List ℕ) → All (λ unit. unit < 2 ^ 16) a → All (λ unit. unit < 2 ^ 16) b
        → units_text a ≡ units_text b → a ≡ b }
{}

/// A name of bytes is read from its front: a character where the bytes begin with the UTF-8 of one, and else one byte.
#[tactic(auto, using(crate::proofs::ByteLaws::byte_reading))]
pub fn reading_of_bytes()
    ensures empty { byte_items [] ≡ [] }
    ensures character { (c : ℕ) (rest : List ℕ) → IsScalar c
        → byte_items (encode_utf8 c ++ rest) ≡ Character c ∷ byte_items rest }
    ensures byte { (byte : ℕ) (rest : List ℕ) → StartsWithNoChar (byte ∷ rest)
        → byte_items (byte ∷ rest) ≡ Byte byte ∷ byte_items rest }
{}

/// A name of units is read from its front: a character where the units begin with the UTF-16 of one, and else one
/// surrogate that begins no pair.
#[tactic(auto, using(crate::proofs::UnitLaws::unit_reading))]
pub fn reading_of_units()
    ensures empty { unit_items [] ≡ [] }
    ensures character { (c : ℕ) (rest : List ℕ) → IsScalar c
        → unit_items (encode_utf16 c ++ rest) ≡ Character c ∷ unit_items rest }
    ensures surrogate { (unit : ℕ) (rest : List ℕ) → 0xD800 ≤ unit → unit ≤ 0xDFFF
        → begins_pair (unit ∷ rest) ≡ false → unit_items (unit ∷ rest) ≡ Surrogate unit ∷ unit_items rest }
{}

/// A printed name has no control character and no `/`.
#[tactic(auto, using(crate::proofs::ShownLaws::names_show))]
pub fn names_show()
    ensures bytes { (name : List ℕ) → All (λ byte. byte < 2 ^ 8) name → All IsShownInName (bytes_text name) }
    ensures units { (name : List ℕ) → All (λ unit. unit < 2 ^ 16) name → All IsShownInName (units_text name) }
{}

/// A printed word has no control character.
#[tactic(auto, using(crate::proofs::ShownLaws::word_text_shows))]
pub fn words_show()
    ensures { (word : List ℕ) → All IsShown (word_text word) }
{}
