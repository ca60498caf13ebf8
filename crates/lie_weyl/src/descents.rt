//! The word of least descents: letters that make an element shorter from the right until it is 1.
//!
//! The element is known by the heights of the images of the simple roots. A simple reflection is a
//! descent where its height is below 0, and changes the heights by sums alone.

ghost use Rattle.std.specs.Prelude.{◌≡◌, ◌≤◌, ◌<◌, ℕ, ℤ, pos, ◌≤ℤ◌, List, MatchOption, IsTrue, ◌↔◌, length, reverse, slice_index_or};
ghost use Rattle.std.specs.List.{All};
ghost use Rattle.lie_datum.specs.Vectors.{entry};
ghost use Rattle.lie_datum.specs.RootDatum.{IsSimpleIndex, IsWithin, rank};
ghost use Rattle.lie_datum.specs.RootList.{IsNumber, root_of, height};
ghost use Rattle.lie_weyl.specs.WeylElement.{AreLetters};
ghost use Rattle.lie_weyl.specs.Descents.{AreHeights, EndsAtRank, AreTurned, IsFirstNegative, IsLeastOf};

use arrayvec::ArrayVec;
use lie_datum::{Datum, RootId, Vector};

/// The heights of the images of the simple roots, and zeros behind them.
pub(crate) fn heights(datum: &Datum, images: &[RootId]) -> Vector
    requires numbers { All (IsNumber datum.now) images.now }
    requires count { length images.now ≤ 8 }
    ensures heights { (k : ℕ) → k < length images.now → entry result k ≡ height (root_of datum.now (slice_index_or images.now k (pos 0))) }
    ensures rest { (k : ℕ) → length images.now ≤ k → entry result k ≡ pos 0 }
{
    let mut heights = [0; 8];
    for k in 0..images.len() {
        heights[k] = i128::from(datum.height(images[k]));
    }
    heights
}

/// The word of least descents of the element with these heights: the least of the shortest words
/// of its inverse. Heights of no element lead to some word.
pub(crate) fn descents(datum: &Datum, heights: &Vector) -> ArrayVec<u8, 120>
    requires { EndsAtRank datum.now heights.now }
    ensures letters { AreLetters datum.now.base result.items }
    ensures least { (w : List ℕ) → AreLetters datum.now.base w → AreHeights datum.now w heights.now → IsLeastOf datum.now (reverse w) result.items }
{
    datum.loaded();
    let mut left = *heights;
    let mut word = ArrayVec::new();
    for _ in 0..datum.m() {
        match first_descent(&left) {
            None => return word,
            Some(k) => {
                left = turned(datum, &left, k + 1);
                word.push(k as u8 + 1);
            }
        }
    }
    word
}

/// The place of the first height below 0, unless there is none or a height is above that of all
/// roots.
fn first_descent(heights: &Vector) -> Option<usize>
    ensures { MatchOption result (IsWithin 800 heights.now → (k : ℕ) → pos 0 ≤ℤ entry heights.now k) (λ k. (k < 8) × IsWithin 800 heights.now × IsFirstNegative heights.now k) }
{
    if !is_small(heights) {
        return None;
    }
    heights.iter().position(|h| *h < 0)
}

/// Whether no entry is above the height of all roots.
fn is_small(heights: &Vector) -> bool
    ensures { IsTrue result ↔ IsWithin 800 heights.now }
{
    heights.iter().all(|h| *h >= -800 && *h <= 800)
}

/// The heights for the element times s_i, with i counted from 1.
fn turned(datum: &Datum, heights: &Vector, i: usize) -> Vector
    requires index { IsSimpleIndex datum.now.base i }
    requires small { IsWithin 800 heights.now }
    ensures turned { AreTurned datum.now i heights.now result }
    ensures rest { EndsAtRank datum.now heights.now → EndsAtRank datum.now result }
{
    datum.loaded();
    let h = heights[i - 1];
    let mut turned = *heights;
    for k in 0..datum.l() {
        let image = datum.reflect(i, datum.simple(k + 1));
        turned[k] += (i128::from(datum.height(image)) - 1) * h;
    }
    turned
}
