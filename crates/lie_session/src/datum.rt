//! The lines of a datum.
ghost use Rattle.std.specs.Prelude.{◌≡◌, ◌≤◌, length, IfOk};
ghost use Rattle.lie_datum.specs.Load.{Loads};
ghost use Rattle.lie_session.specs.DatumLines.{opened, padded as with_zeros, with_root, with_coroot, is_whole, base_of, datum_wants};

use lie_datum::{Datum, DatumFault, Vector};
use lie_script::Wants;
use std::alloc::{AllocError, Global};
use std::marker::Model;

/// The lines of a datum that were read so far.
#[derive(Drop)]
pub(crate) struct DatumLines {
    d: usize,
    l: usize,
    roots: Vec<Vector>,
    coroots: Vec<Vector>,
}

impl Model for DatumLines {
    ghost use Rattle.std.specs.Prelude.{◌≤◌};
    ghost use Rattle.lie_session.specs.DatumLines.{DatumLines};

    ghost Value = { DatumLines };

    ghost view = { λ x. record { dim = x.d; rank = x.l; roots = x.roots.items; coroots = x.coroots.items } };

    ghost invariant = { λ x. (x.d ≤ 8) × (x.l ≤ 8) };
}

/// The vector with zeros past the dimension.
pub(crate) fn padded(v: &[i128]) -> Vector
    requires { length v.now ≤ 8 }
    ensures { result ≡ with_zeros v.now }
{
    let mut vector = [0; 8];
    vector[..v.len()].copy_from_slice(v);
    vector
}

impl DatumLines {
    /// The line `datum d l` alone.
    pub(crate) fn opened(alloc: Global, d: usize, l: usize) -> DatumLines
        requires dim { d ≤ 8 }
        requires rank { l ≤ 8 }
        ensures { result ≡ opened d l }
    {
        DatumLines {
            d,
            l,
            roots: Vec::new(alloc),
            coroots: Vec::new(alloc),
        }
    }

    /// The lines with one simple root more.
    pub(crate) fn with_root(mut self, v: &[i128]) -> Result<DatumLines, AllocError>
        requires { length v.now ≤ 8 }
        ensures { IfOk result (λ lines. lines ≡ with_root self v.now) }
    {
        self.roots.push(padded(v))?;
        Ok(self)
    }

    /// The lines with one simple coroot more.
    pub(crate) fn with_coroot(mut self, v: &[i128]) -> Result<DatumLines, AllocError>
        requires { length v.now ≤ 8 }
        ensures { IfOk result (λ lines. lines ≡ with_coroot self v.now) }
    {
        self.coroots.push(padded(v))?;
        Ok(self)
    }

    /// The number of coordinates.
    pub(crate) fn dim(&self) -> usize
        ensures value { result ≡ self.now.dim }
        ensures bound { self.now.dim ≤ 8 }
    {
        self.d
    }

    /// The number of simple roots, with those to come.
    pub(crate) fn rank(&self) -> usize
        ensures value { result ≡ self.now.rank }
        ensures bound { self.now.rank ≤ 8 }
    {
        self.l
    }

    /// Whether no line is missing.
    pub(crate) fn is_whole(&self) -> bool
        ensures { result ≡ is_whole self.now }
    {
        self.coroots.len() == self.l
    }

    /// What is awaited, where a line is missing.
    pub(crate) fn wants(&self) -> Wants
        ensures { result ≡ datum_wants self.now }
    {
        if self.roots.len() < self.l {
            Wants::Root
        } else {
            Wants::Coroot
        }
    }

    /// The datum of the lines.
    pub(crate) fn load(&self, alloc: Global) -> Result<Datum, DatumFault>
        ensures { Loads (base_of self.now) result }
    {
        Datum::load(alloc, self.d, &self.roots, &self.coroots)
    }
}
