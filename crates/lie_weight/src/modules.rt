//! A module: how it is kept, and its readers.

ghost use Rattle.std.specs.Prelude.{◌≡◌, ◌*◌, ◌≤◌, ◌<◌, [], length, slice_index_or, unsigned_abs};
ghost use Rattle.lie_datum.specs.RootDatum.{IsWithin};
ghost use Rattle.lie_const.specs.Modules.{dimension, top, divided_power};
ghost use Rattle.lie_weight.specs.Kept.{IsSquare, IsKeptModule};

use lie_datum::{RootId, Vector};
use lie_mat::Mat;
use lie_ring::Ints;
use std::marker::Model;

/// A module, with its weights and the matrices of its roots.
#[derive(Drop)]
pub struct Module {
    pub(crate) positive: usize,
    pub(crate) weights: Vec<Vector>,
    /// E_r^(1), E_r^(2), .. for each root r in the full order.
    pub(crate) powers: Vec<Vec<Mat<Ints>>>,
}

impl Model for Module {
    ghost use Rattle.lie_const.specs.Modules.{Module as DefinedModule};

    ghost Value = { DefinedModule };

    ghost use Rattle.lie_weight.specs.Kept.{kept_module, IsKeptModule};

    ghost view = { kept_module };

    ghost invariant = { λ a. IsKeptModule (kept_module a) };
}

impl Module {
    /// That the module is kept as `specs/Kept.antt` says.
    pub(crate) fn kept(&self)
        ensures { IsKeptModule self.now }
    {
        let _ = &self.powers;
    }

    /// The number of basis vectors.
    pub fn dim(&self) -> usize
        ensures value { result ≡ dimension self.now }
        ensures few { result ≤ 1024 }
    {
        self.weights.len()
    }

    /// The weight of a basis vector, which counts from 0.
    pub fn weight(&self, a: usize) -> &Vector
        requires { a < dimension self.now }
        ensures value { result.now ≡ slice_index_or self.now.weights a [] }
        ensures bound { IsWithin 1000000 result.now }
    {
        &self.weights[a]
    }

    /// The greatest k with E_r^(k) not 0, or 0 where there is none.
    pub fn top(&self, r: RootId) -> u32
        requires { unsigned_abs r ≤ self.now.positive }
        ensures value { result ≡ top self.now r }
        ensures bound { result ≤ 16 * dimension self.now }
    {
        self.powers[r.place(self.positive)].len() as u32
    }

    /// E_r^(k).
    pub fn power(&self, r: RootId, k: u32) -> &Mat<Ints>
        requires r { unsigned_abs r ≤ self.now.positive }
        requires positive { 1 ≤ k }
        requires within { k ≤ top self.now r }
        ensures value { result.now ≡ divided_power self.now r k }
        ensures square { IsSquare (dimension self.now) result.now }
    {
        &self.powers[r.place(self.positive)][k as usize - 1]
    }
}
