//! Laws of joined words.
ghost use Rattle.std.specs.Prelude.{◌≡◌, ◌↔◌, ℕ, ℤ, List, [], ◌∷◌, ◌++◌, map, length};
ghost use Rattle.lie_field.specs.FiniteField.{FiniteField};
ghost use Rattle.lie_field.specs.Quotient.{mul};
ghost use Rattle.lie_field.specs.FieldRing.{field_ring};
ghost use Rattle.lie_datum.specs.RootDatum.{vector};
ghost use Rattle.lie_datum.specs.RootList.{RootDatum, IsLoaded, root_of};
ghost use Rattle.lie_letters.specs.Entries.{IsTorusGroup, character};
ghost use Rattle.lie_letters.specs.Chains.{IsChain};
ghost use Rattle.lie_letters.specs.Frames.{FrameData, setting, IsLawfulFrame};
ghost use Rattle.lie_letters.specs.Names.{opposite_name, is_negative_name, positive_names};
ghost use Rattle.lie_letters.specs.Laws.{Laws};
ghost use Rattle.lie_letters.specs.RootSystems.{RootLaws, PositiveLaws, root_system};
ghost use Rattle.lie_letters.specs.Collecting.{CollectLaws};
ghost use Rattle.lie_letters.specs.RingLetters.{RingLetter, IsRingWord};
ghost use Rattle.lie_letters.specs.RingRelations.{RingJoined};
ghost use Rattle.lie_letters.specs.PositiveTerms.{positive_terms};
ghost use Rattle.lie_letters.specs.Letters.{Word};
ghost use Rattle.lie_letters.specs.Relations.{Relation, Joined};
ghost use Rattle.lie_letters.specs.Spelled.{JoinedSpelled, IsLetterOver, IsWordOver, HasNoWeylLetters, root_letters, reversed};
ghost use Rattle.lie_letters.specs.SignedFrames.{SignedFrame, unsigned};
ghost use Rattle.lie_letters.specs.GroupSpelled.{JoinedInGroup};

use crate::letter::Letter;

/// The vectors of units of one length are a commutative group under `Torus::mul`, with `Torus::one` and
/// `Torus::inv`.
pub fn torus_is_a_group()
    ensures { (f : FiniteField) → IsTorusGroup f }
{}

/// Words are joined exactly if there is a list of words, each one exchange from the word before it,
/// that leads from one to the other.
pub fn chains_are_lists()
    ensures { (f : FrameData) (u v : Word (setting f)) → Joined (setting f) u v ↔ ((between : List (Word (setting f))) × IsChain (Relation (setting f)) u between v) }
{}

/// A word of the frame is joined to itself.
pub fn joined_reflexive()
    ensures { (f : FrameData) (u : List Letter) → IsWordOver f u → JoinedSpelled f u u }
{}

/// Joined words are joined to what the second is joined to.
pub fn joined_transitive()
    ensures { (f : FrameData) (u v w : List Letter) → JoinedSpelled f u v → JoinedSpelled f v w → JoinedSpelled f u w }
{}

/// Joined words are joined the other way round.
pub fn joined_symmetric()
    ensures { (f : FrameData) (u v : List Letter) → JoinedSpelled f u v → JoinedSpelled f v u }
{}

/// Words that are joined part by part are joined.
pub fn joined_appended()
    ensures { (f : FrameData) (u v w x : List Letter) → JoinedSpelled f u v → JoinedSpelled f w x → JoinedSpelled f (u ++ w) (v ++ x) }
{}

/// A word of root letters and torus letters, followed by its reversed word, is joined to the empty word.
pub fn reversed_cancels()
    ensures { (f : FrameData) (w : List Letter) → IsWordOver f w → HasNoWeylLetters w → JoinedSpelled f (w ++ reversed f.field w) [] }
{}

/// A word of torus letters is joined to one torus letter.
pub fn torus_words_are_letters()
    ensures { (f : FrameData) (ts : List (List ℕ)) → IsWordOver f (map (λ t. Letter.H t) ts) → (t : List ℕ) × JoinedSpelled f (Letter.H t ∷ []) (map (λ t. Letter.H t) ts) }
{}

/// Torus letters decide which words are joined: two words that are joined to a torus letter each are
/// joined exactly if the letters are the same.
pub fn torus_letters_decided()
    ensures { (f : FrameData) (u v : List Letter) (t s : List ℕ) → JoinedSpelled f (Letter.H t ∷ []) u → JoinedSpelled f (Letter.H s ∷ []) v → ((t ≡ s) ↔ JoinedSpelled f u v) }
{}

/// The elements of a lawful frame are a field, its torus a commutative group, and roots and coroots
/// respect products.
pub fn setting_laws()
    ensures { (f : FrameData) → IsLawfulFrame f → Laws (setting f) }
{}

/// The roots of a loaded datum are determined by their coefficients, and simple reflections keep the
/// pairings.
pub fn root_system_laws()
    ensures { (d : RootDatum) → IsLoaded d → RootLaws (root_system d) }
{}

/// Which roots of a loaded datum are negative, and how opposites and simple reflections change that.
pub fn positive_root_laws()
    ensures { (d : RootDatum) → IsLoaded d → PositiveLaws (root_system d) (opposite_name d) (is_negative_name d) (positive_names d) }
{}

/// In a lawful frame positive roots are not opposite, the order of the roots is total, and the terms of two
/// positive roots stand after both.
pub fn collecting_laws()
    ensures { (f : FrameData) → IsLawfulFrame f → CollectLaws (setting f) }
{}

/// Words of positive root letters that are joined over the field's ring are joined in the frame.
pub fn joined_over_field_ring()
    ensures { (f : FrameData) (u v : List (RingLetter ℕ)) → IsLawfulFrame f → IsRingWord (field_ring f.field) (length f.datum.positive) u → RingJoined (field_ring f.field) (length f.datum.positive) (positive_terms f.constants) u v → JoinedSpelled f (root_letters u) (root_letters v) }
{}

/// A torus letter passes a root letter: `h(t) x_r(a)` is joined to `x_r(r(t) a) h(t)`.
pub fn torus_passes_roots()
    ensures { (f : FrameData) (t : List ℕ) (r : ℤ) (a : ℕ) → IsLetterOver f (Letter.H t) → IsLetterOver f (Letter.X r a) → JoinedSpelled f (Letter.H t ∷ Letter.X r a ∷ []) (Letter.X r (mul f.field.given (character f.field t (vector f.datum.base (root_of f.datum r))) a) ∷ Letter.H t ∷ []) }
{}

/// Words that are joined in a lawful frame are joined in each one with the same field and datum: the
/// constants of a datum are determined.
pub fn joined_by_any_table()
    ensures { (f g : FrameData) (u v : List Letter) → IsLawfulFrame f → IsLawfulFrame g → f.field ≡ g.field → f.datum ≡ g.datum → JoinedSpelled f u v → JoinedSpelled g u v }
{}

/// A word of the frame is joined to itself in the group.
pub fn joined_in_group_reflexive()
    ensures { (f : SignedFrame) (u : List Letter) → IsWordOver (unsigned f) u → JoinedInGroup f u u }
{}

/// Words that are joined in the group are joined to what the second is joined to.
pub fn joined_in_group_transitive()
    ensures { (f : SignedFrame) (u v w : List Letter) → JoinedInGroup f u v → JoinedInGroup f v w → JoinedInGroup f u w }
{}

/// Words that are joined in the group are joined the other way round.
pub fn joined_in_group_symmetric()
    ensures { (f : SignedFrame) (u v : List Letter) → JoinedInGroup f u v → JoinedInGroup f v u }
{}

/// Words that are joined part by part in the group are joined.
pub fn joined_in_group_appended()
    ensures { (f : SignedFrame) (u v w x : List Letter) → JoinedInGroup f u v → JoinedInGroup f w x → JoinedInGroup f (u ++ w) (v ++ x) }
{}

/// Words that are joined by S0 to S4 are joined in the group.
pub fn joined_in_group_plain()
    ensures { (f : SignedFrame) (u v : List Letter) → JoinedSpelled (unsigned f) u v → JoinedInGroup f u v }
{}
