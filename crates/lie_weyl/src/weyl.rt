//! The elements of the Weyl group.

ghost use Rattle.std.specs.Prelude.{◌≡◌, ◌↔◌, ◌-◌, ◌∷◌, ◌++◌, [], ℕ, ℤ, List, IsTrue, IfOk, MatchOption, length, reverse, slice_index_or};
ghost use Rattle.std.specs.List.{All};
ghost use Rattle.lie_datum.specs.RootDatum.{IsSimpleIndex, IsWithin, rank, simple};
ghost use Rattle.lie_datum.specs.RootList.{IsNumber, root_of};
ghost use Rattle.lie_weyl.specs.WeylElement.{moved, AreLetters, Spells, IsElement, IsLength, IsLeastWord};
ghost use Rattle.lie_weyl.specs.Descents.{IsLeastOf};

use crate::descents::{descents, heights};
use arrayvec::ArrayVec;
use lie_datum::{Datum, RootId, Vector, combination};
use std::alloc::{AllocError, Global};
use std::marker::Model;

/// A product of simple reflections, by the images of the simple roots.
#[derive(Clone, Copy)]
pub struct Weyl {
    l: usize,
    images: [RootId; 8],
}

impl Model for Weyl {
    ghost use Rattle.std.specs.Prelude.{List, ℤ};

    ghost Value = { List ℤ };

    ghost use Rattle.lie_weyl.specs.Padding.{used, unpadded, IsPadded, unpadded-used};

    ghost view = { used };

    ghost invariant = { IsPadded };

    ghost inverse = { unpadded };

    ghost inverse_ok = { unpadded-used };
}

impl Weyl {
    /// The element 1.
    pub fn identity(datum: &Datum) -> Weyl
        ensures { Spells datum.now [] result }
    {
        datum.loaded();
        let l = datum.l();
        let mut images = [RootId::at(0, 1); 8];
        for k in 0..l {
            images[k] = datum.simple(k + 1);
        }
        Weyl { l, images }
    }

    /// The element times s_i, with i counted from 1: s_i acts first.
    pub fn times_simple(&self, datum: &Datum, i: usize) -> Weyl
        requires element { IsElement datum.now self.now }
        requires index { IsSimpleIndex datum.now.base i }
        ensures element { IsElement datum.now result }
        ensures word { (w : List ℕ) → Spells datum.now w self.now → Spells datum.now (w ++ i ∷ []) result }
    {
        self.mul(datum, &Weyl::identity(datum).simple_times(datum, i))
    }

    /// s_i times the element, with i counted from 1: s_i acts last.
    pub fn simple_times(&self, datum: &Datum, i: usize) -> Weyl
        requires element { IsElement datum.now self.now }
        requires index { IsSimpleIndex datum.now.base i }
        ensures element { IsElement datum.now result }
        ensures word { (w : List ℕ) → Spells datum.now w self.now → Spells datum.now (i ∷ w) result }
    {
        let l = self.l;
        let mut images = self.images;
        for k in 0..l {
            images[k] = datum.reflect(i, images[k]);
        }
        Weyl { l, images }
    }

    /// The product: `b` acts first.
    pub fn mul(&self, datum: &Datum, b: &Weyl) -> Weyl
        requires element { IsElement datum.now self.now }
        requires b { IsElement datum.now b.now }
        ensures element { IsElement datum.now result }
        ensures word { (w v : List ℕ) → Spells datum.now w self.now → Spells datum.now v b.now → Spells datum.now (w ++ v) result }
    {
        let l = b.l;
        let mut images = b.images;
        for k in 0..l {
            images[k] = self.image(datum, images[k]);
        }
        Weyl { l, images }
    }

    /// The inverse: its word is read off the descents of the element.
    pub fn inverse(&self, datum: &Datum) -> Weyl
        requires { IsElement datum.now self.now }
        ensures element { IsElement datum.now result }
        ensures word { (w : List ℕ) → Spells datum.now w self.now → Spells datum.now (reverse w) result }
    {
        Weyl::from_word(datum, &self.inverse_word(datum))
    }

    /// The image of a root: the combination of the images of the simple roots, looked up by its
    /// coefficients.
    pub fn image(&self, datum: &Datum, r: RootId) -> RootId
        requires element { IsElement datum.now self.now }
        requires number { IsNumber datum.now r }
        ensures number { IsNumber datum.now result }
        ensures image { (w : List ℕ) → Spells datum.now w self.now → root_of datum.now result ≡ moved datum.now.base w (root_of datum.now r) }
    {
        datum.loaded();
        let vectors = self.vectors(datum);
        datum
            .named(&combination(datum.coeffs(r), &vectors))
            .unwrap()
    }

    /// The coefficients of the images of the simple roots, and zeros behind them.
    fn vectors(&self, datum: &Datum) -> [Vector; 8]
        requires { IsElement datum.now self.now }
        ensures count { length result ≡ 8 }
        ensures lengths { All (λ v. length v ≡ 8) result }
        ensures within { All (IsWithin 100) result }
        ensures images { (i : ℕ) (w : List ℕ) → IsSimpleIndex datum.now.base i → Spells datum.now w self.now →
            slice_index_or result (i - 1) [] ≡ (moved datum.now.base w (simple i)).coeffs }
    {
        datum.loaded();
        let images = self.images;
        let mut vectors = [[0; 8]; 8];
        for k in 0..self.l {
            vectors[k] = *datum.coeffs(images[k]);
        }
        vectors
    }

    /// The images of the simple roots, that of a_i at place i - 1.
    pub fn images(&self) -> &[RootId]
        ensures { result.now ≡ self.now }
    {
        &self.images[..self.l]
    }

    /// The least word of the inverse.
    fn inverse_word(&self, datum: &Datum) -> ArrayVec<u8, 120>
        requires { IsElement datum.now self.now }
        ensures letters { AreLetters datum.now.base result.items }
        ensures least { (w : List ℕ) → Spells datum.now w self.now → IsLeastOf datum.now (reverse w) result.items }
    {
        datum.loaded();
        descents(datum, &heights(datum, self.images()))
    }

    /// The length: so many letters has each shortest word.
    pub fn length(&self, datum: &Datum) -> usize
        requires { IsElement datum.now self.now }
        ensures { IsLength datum.now self.now result }
    {
        datum.loaded();
        self.inverse_word(datum).len()
    }

    /// The lexicographically least of the shortest words; letters count from 1, and the last acts
    /// first.
    pub fn least_word(&self, alloc: Global, datum: &Datum) -> Result<Vec<u8>, AllocError>
        requires { IsElement datum.now self.now }
        ensures { IfOk result (λ word. IsLeastWord datum.now word.items self.now) }
    {
        datum.loaded();
        copied(alloc, &self.inverse(datum).inverse_word(datum))
    }

    /// Whether two elements of one datum are equal.
    pub fn same(&self, b: &Weyl) -> bool
        ensures { IsTrue result ↔ (self.now ≡ b.now) }
    {
        self.l == b.l && self.images == b.images
    }

    /// The product of s_i over the letters of the word, the last of which acts first.
    pub fn from_word(datum: &Datum, word: &[u8]) -> Weyl
        requires { AreLetters datum.now.base word.now }
        ensures { Spells datum.now word.now result }
    {
        let mut product = Weyl::identity(datum);
        for k in 0..word.len() {
            let i = word[word.len() - 1 - k];
            product = product.simple_times(datum, i as usize);
        }
        product
    }

    /// The element that sends the simple roots to these images, that of a_i at place i - 1.
    pub fn from_images(datum: &Datum, images: &[RootId]) -> Option<Weyl>
        requires count { length images.now ≡ rank datum.now.base }
        requires numbers { All (IsNumber datum.now) images.now }
        ensures { MatchOption result (¬ IsElement datum.now images.now) (λ w. (w ≡ images.now) × IsElement datum.now w) }
    {
        datum.loaded();
        let word = descents(datum, &heights(datum, images));
        let w = Weyl::from_word(datum, &word).inverse(datum);
        if w.images() == images { Some(w) } else { None }
    }
}

/// The word in memory of its own.
fn copied(alloc: Global, word: &[u8]) -> Result<Vec<u8>, AllocError>
    ensures { IfOk result (λ copy. copy.items ≡ word.now) }
{
    word.iter().copied().collect(alloc)
}
