//! Laws by which the definitions of reading and matching can be checked.
ghost use Rattle.std.specs.Prelude.{◌≡◌, ◌≢◌, ◌↔◌, ◌++◌, ◌∷◌, [], ℕ, All, Err, IsTrue, List, None, Ok, Some, false, map, true};
ghost use Rattle.rx_pattern.specs.Match.{Match, IsSplit};
ghost use Rattle.rx_pattern.specs.MatchTest.{is_match};
ghost use Rattle.rx_pattern.specs.Reading.{IsOrdinary, IsFirstOpen, behind_items, inside_of, items_of, members_of, read_pattern};
ghost use Rattle.rx_pattern.specs.declared.class.Member.TheVariants.{Single, Between};
ghost use Rattle.rx_pattern.specs.declared.item.Item.{Item};
ghost use Rattle.rx_pattern.specs.declared.item.Item.TheVariants.{Plain, AnyOne, Star, OneOf};

/// A text reads item by item: `*`, `?`, a character that stands for itself, and a class up to its `]`, with a `!` or none.
#[tactic(auto, using(crate::proofs::ReadingLaws::empty_reads, crate::proofs::ReadingLaws::star_reads, crate::proofs::ReadingLaws::question_reads, crate::proofs::ReadingLaws::ordinary_reads, crate::proofs::ReadingLaws::class_reads, crate::proofs::ReadingLaws::negated_reads))]
pub fn a_text_reads_from_the_left()
    ensures empty { items_of [] ≡ Ok [] }
    ensures star { (text : List ℕ) → items_of (42 ∷ text) ≡ behind_items (Star ∷ []) (items_of text) }
    ensures question { (text : List ℕ) → items_of (63 ∷ text) ≡ behind_items (AnyOne ∷ []) (items_of text) }
    ensures ordinary { (c : ℕ) (text : List ℕ) → IsOrdinary c
        → items_of (c ∷ text) ≡ behind_items (Plain c ∷ []) (items_of text) }
    ensures class { (first : ℕ) (others text : List ℕ) → All (λ c. c ≢ 93) others → first ≢ 33
        → items_of (91 ∷ (first ∷ others ++ 93 ∷ text))
        ≡ behind_items (OneOf record { negated = false; members = members_of (first ∷ others) } ∷ []) (items_of text) }
    ensures negated { (first : ℕ) (others text : List ℕ) → All (λ c. c ≢ 93) others
        → items_of (91 ∷ 33 ∷ (first ∷ others ++ 93 ∷ text))
        ≡ behind_items (OneOf record { negated = true; members = members_of (first ∷ others) } ∷ []) (items_of text) }
{}

/// The characters of a class read from the left: a `-` with a character on both sides makes a range, and any other
/// character stands for itself.
#[tactic(auto, using(crate::proofs::MembersOf::no_members, crate::proofs::MembersOf::range_member, crate::proofs::MembersOf::single_member, crate::proofs::MembersOf::last_member, crate::proofs::MembersOf::last_dash))]
pub fn members_read_from_the_left()
    ensures empty { members_of [] ≡ [] }
    ensures range { (first last : ℕ) (inside : List ℕ)
        → members_of (first ∷ 45 ∷ last ∷ inside) ≡ Between first last ∷ members_of inside }
    ensures single { (c next : ℕ) (inside : List ℕ) → next ≢ 45
        → members_of (c ∷ next ∷ inside) ≡ Single c ∷ members_of (next ∷ inside) }
    ensures last { (c : ℕ) → members_of (c ∷ []) ≡ Single c ∷ [] }
    ensures last_dash { (c : ℕ) → members_of (c ∷ 45 ∷ []) ≡ Single c ∷ Single 45 ∷ [] }
{}

/// A class ends at the first `]` behind its first character. Where there is none it isn't closed.
#[tactic(auto, using(crate::proofs::ReadingLaws::class_closes, crate::proofs::ReadingLaws::class_stays_open))]
pub fn a_class_ends_at_the_next_bracket()
    ensures closed { (first : ℕ) (others behind : List ℕ) → All (λ c. c ≢ 93) others
        → inside_of (first ∷ others ++ 93 ∷ behind) ≡ Some (first ∷ others) }
    ensures unclosed { (first : ℕ) (others : List ℕ) → All (λ c. c ≢ 93) others → inside_of (first ∷ others) ≡ None }
    ensures nothing { inside_of [] ≡ None }
{}

/// A text that reads is read the same in front of another one.
#[tactic(auto, using(crate::proofs::ReadingLaws::front_reads))]
pub fn a_front_that_reads_stays()
    ensures { (text more : List ℕ) (front : List Item) → items_of text ≡ Ok front
        → items_of (text ++ more) ≡ behind_items front (items_of more) }
{}

/// A text doesn't read exactly where it has a `[` that isn't closed, and the byte that is told is that of the first one.
pub fn the_first_open_class_is_told()
    ensures { (text : List ℕ) (at : ℕ) → (read_pattern text ≡ Err at) ↔ IsFirstOpen text at }
{}

/// The test of matching decides the relation.
#[tactic(auto, using(crate::proofs::Deciding::test_decides))]
pub fn the_test_decides()
    ensures { (items : List Item) (text : List ℕ) → IsTrue (is_match items text) ↔ Match items text }
{}

/// A pattern without `*`, `?` and `[` matches exactly itself.
#[tactic(auto, using(crate::proofs::ReadingLaws::plain_reads, crate::proofs::MatchLaws::plain_matches_itself))]
pub fn a_plain_pattern_matches_itself()
    ensures reads { (letters : List ℕ) → All IsOrdinary letters → items_of letters ≡ Ok (map Plain letters) }
    ensures matches { (letters text : List ℕ) → Match (map Plain letters) text ↔ (text ≡ letters) }
{}

/// The pattern `*` matches everything.
#[tactic(auto, using(crate::proofs::ReadingLaws::star_alone, crate::proofs::MatchLaws::star_matches_all))]
pub fn a_star_matches_everything()
    ensures reads { items_of (42 ∷ []) ≡ Ok (Star ∷ []) }
    ensures matches { (text : List ℕ) → Match (Star ∷ []) text }
{}

/// A match of two patterns with a `*` between them splits the text.
#[tactic(auto, using(crate::proofs::ReadingLaws::star_between, crate::proofs::MatchLaws::star_splits))]
pub fn a_star_splits_the_text()
    ensures reads { (first last : List ℕ) (front back : List Item) → items_of first ≡ Ok front → items_of last ≡ Ok back
        → items_of (first ++ 42 ∷ last) ≡ Ok (front ++ Star ∷ back) }
    ensures matches { (front back : List Item) (text : List ℕ)
        → Match (front ++ Star ∷ back) text ↔ IsSplit front back text }
{}
