//! Laws on collected lists.

ghost use Rattle.std.specs.Prelude.{Ok, length};
ghost use Rattle.lie_datum.specs.RootList.{RootDatum, IsLoaded};
ghost use Rattle.lie_const.specs.ConstantTables.{ConstantTable, LoadsConstants};
ghost use Rattle.lie_letters.specs.PositiveTerms.{positive_terms};
ghost use Rattle.lie_unip.specs.Laws.{CollectsOnce, DropsZeros, JoinsAnswers, CarriesAnswers};

use lie_ring::{Hom, Ring};

/// Each word of positive root letters has a collected list, and one alone, in each order.
pub fn collects_once<R: Ring>()
    ensures { (r : R) (d : RootDatum) (t : ConstantTable) → IsLoaded d → LoadsConstants d (Ok t) → CollectsOnce (R.ring r) (length d.positive) (positive_terms t) }
{}

/// Letters that are 0 may be dropped from a word, and put in.
pub fn drops_zeros<R: Ring>()
    ensures { (r : R) (d : RootDatum) (t : ConstantTable) → IsLoaded d → LoadsConstants d (Ok t) → DropsZeros (R.ring r) (length d.positive) (positive_terms t) }
{}

/// A word is joined over the ring to the full word of its collected list, and to the full words of
/// the two parts of a split.
pub fn joins_answers<R: Ring>()
    ensures { (r : R) (d : RootDatum) (t : ConstantTable) → IsLoaded d → LoadsConstants d (Ok t) → JoinsAnswers (R.ring r) (length d.positive) (positive_terms t) }
{}

/// A homomorphism carries each answer of `Unip` to the answer over the other ring.
pub fn carries_answers<H: Hom>()
    ensures { (h : H) (t : ConstantTable) → CarriesAnswers (H.Src.ring (H.source h)) (H.Dst.ring (H.target h)) (H.map h) (positive_terms t) }
{}
