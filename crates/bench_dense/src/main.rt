//! Multiplies two dense matrices over a prime field again and again, for `bench/dense.sh`, which
//! times it.
//!
//! The words of the command line: a prime p, a generator of the units modulo p, the dimension, and
//! how often to multiply. The output is the sum of the numbers of the entries of the product.
#![tactic(auto)]

ghost use Rattle.std.specs.Prelude.{◌≡◌, ◌<◌, ◌≤◌, IfOk};
ghost use Rattle.lie_ring.specs.Matrices.{AllElem};
ghost use Rattle.lie_field.specs.FieldRing.{field_ring};

use anyhow::{Error, bail};
use lie_dense::Dense;
use lie_field::Field;
use lie_mat::Mat;
use lie_ring::Ints;
use std::alloc::{AllocError, Global};
use std::env;

/// A matrix of whole numbers below 2^15, from a fixed sequence.
fn integers(alloc: Global, n: usize, seed: u32) -> Result<Mat<Ints>, AllocError>
    requires few { n ≤ 1024 }
    ensures rows { IfOk result (λ m. m.height ≡ n) }
    ensures cols { IfOk result (λ m. m.width ≡ n) }
{
    let mut matrix = Mat::zero(alloc, n, n)?;
    let mut state = seed;
    for row in 0..n {
        for col in 0..n {
            state = state.wrapping_mul(1_103_515_245).wrapping_add(12_345);
            matrix.set(&Ints, row, col, i128::from(state >> 17))?;
        }
    }
    Ok(matrix)
}

/// The last of as many products of two matrices, and zero where there is none.
fn multiplied(
    alloc: Global,
    field: &Field,
    n: usize,
    a: &Dense,
    b: &Dense,
    times: u32,
) -> Result<Dense, AllocError>
    requires few { n ≤ 1024 }
    requires rows { a.now.height ≡ n }
    requires cols { a.now.width ≡ n }
    requires shape { a.now.width ≡ b.now.height }
    requires elem { AllElem (field_ring field.now) a.now }
    requires b_elem { AllElem (field_ring field.now) b.now }
{
    let mut product = Dense::zero(alloc, n)?;
    for _ in 0..times {
        product = a.mul(alloc, field, b)?;
    }
    Ok(product)
}

/// The sum of the numbers of the entries.
fn total(matrix: &Dense) -> u64 {
    let mut total: u64 = 0;
    for row in 0..matrix.dim() {
        for col in 0..matrix.dim() {
            total = total.wrapping_add(u64::from(matrix.get(row, col).number()));
        }
    }
    total
}

/// The numbers on the command line.
fn numbers(rt: &HostRuntime, alloc: Global) -> Result<Vec<u32>, Error> {
    let mut numbers = Vec::new(alloc);
    for word in env::args(rt)?.skip(1) {
        numbers.push(word.as_str().parse::<u32>()?)?;
    }
    Ok(numbers)
}

fn main(rt: HostRuntime) -> Result<(), Error> {
    let alloc = rt.alloc();
    let numbers = numbers(&rt, alloc)?;
    let &[p, g, n, times] = numbers.as_slice() else {
        bail!("a prime, a generator, a dimension of at most 1,024, and how often");
    };
    if n > 1024 {
        bail!("the dimension is above 1,024");
    }
    let n = n as usize;
    let field = Field::load(alloc, p, 1, &[0], g)?;
    let a = Dense::of_ints(alloc, &field, &integers(alloc, n, 1)?)?;
    let b = Dense::of_ints(alloc, &field, &integers(alloc, n, 2)?)?;
    let product = multiplied(alloc, &field, n, &a, &b, times)?;
    println!(rt; "{}", total(&product))?;
    Ok(())
}
