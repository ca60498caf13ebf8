//! Sums, negatives and products of lists of terms.

ghost use Rattle.std.specs.Prelude.{◌≡◌, ◌+◌, ◌+ℤ◌, ◌*◌, ◌^◌, ◌<◌, ◌++◌, [], nat_abs, neg_ℤ, T, map, IfOk, OnOk, max};
ghost use Rattle.lie_poly.specs.Terms.{Term, term, keep, is_canonical, collect, product_term, times, products, size_of, degree_of};

use crate::term::Term;
use std::alloc::{AllocError, Global};
use std::cmp::Ordering;

/// The sum of two canonical lists.
pub(crate) fn sum_of(alloc: Global, xs: &[Term], ys: &[Term]) -> Result<Vec<Term>, AllocError>
    requires xs { T (is_canonical xs.now) }
    requires ys { T (is_canonical ys.now) }
    requires small { size_of xs.now + size_of ys.now < 2 ^ 126 }
    ensures { IfOk result (λ sum. sum.items ≡ collect (xs.now ++ ys.now)) }
{
    let mut sum = Vec::new(alloc);
    let mut i = 0;
    let mut j = 0;
    'merge: while i < xs.len() && j < ys.len() {
        let (x, y) = (xs[i], ys[j]);
        match x.exponents.cmp(&y.exponents) {
            Ordering::Less => {
                sum.push(x)?;
                i += 1;
            }
            Ordering::Greater => {
                sum.push(y)?;
                j += 1;
            }
            Ordering::Equal => {
                push_sum(&mut sum, x, y)?;
                i += 1;
                j += 1;
            }
        }
    }
    sum.extend_from_slice(&xs[i..])?;
    sum.extend_from_slice(&ys[j..])?;
    Ok(sum)
}

/// Appends the sum of two terms with the same exponents, unless it is 0.
fn push_sum(sum: &mut Vec<Term>, x: Term, y: Term) -> Result<(), AllocError>
    requires small { nat_abs x.coefficient + nat_abs y.coefficient < 2 ^ 126 }
    ensures { let both = term y.exponents (x.coefficient +ℤ y.coefficient) in
        OnOk result (sum.new.items ≡ sum.old.items ++ keep both []) }
{
    push_kept(
        sum,
        Term {
            exponents: y.exponents,
            coefficient: x.coefficient + y.coefficient,
        },
    )
}

/// Appends a term, unless its coefficient is 0.
pub(crate) fn push_kept(terms: &mut Vec<Term>, x: Term) -> Result<(), AllocError>
    ensures { OnOk result (terms.new.items ≡ terms.old.items ++ keep x []) }
{
    if x.coefficient != 0 {
        terms.push(x)?;
    }
    Ok(())
}

/// The negatives of the terms.
pub(crate) fn negatives_of(alloc: Global, terms: &[Term]) -> Result<Vec<Term>, AllocError>
    requires { size_of terms.now < 2 ^ 126 }
    ensures { IfOk result (λ negatives.
        negatives.items ≡ map (λ x. term x.exponents (neg_ℤ x.coefficient)) terms.now) }
{
    let mut negatives = Vec::new(alloc);
    for x in terms {
        negatives.push(Term {
            exponents: x.exponents,
            coefficient: -x.coefficient,
        })?;
    }
    Ok(negatives)
}

/// The product of two terms.
fn product_term(x: Term, y: Term) -> Term
    requires small { nat_abs x.coefficient * nat_abs y.coefficient < 2 ^ 126 }
    requires degree { max (nat_abs x.exponents.0) (nat_abs x.exponents.1)
        + max (nat_abs y.exponents.0) (nat_abs y.exponents.1) < 2 ^ 30 }
    ensures { result ≡ product_term x y }
{
    Term {
        exponents: (x.exponents.0 + y.exponents.0, x.exponents.1 + y.exponents.1),
        coefficient: x.coefficient * y.coefficient,
    }
}

/// The product of a term with each of a list.
fn multiples_of(alloc: Global, x: Term, ys: &[Term]) -> Result<Vec<Term>, AllocError>
    requires small { nat_abs x.coefficient * size_of ys.now < 2 ^ 126 }
    requires degree { max (nat_abs x.exponents.0) (nat_abs x.exponents.1) + degree_of ys.now < 2 ^ 30 }
    ensures { IfOk result (λ multiples. multiples.items ≡ times x ys.now) }
{
    let mut multiples = Vec::new(alloc);
    for y in ys {
        multiples.push(product_term(x, *y))?;
    }
    Ok(multiples)
}

/// The product of two canonical lists: that of each half of the first is added.
pub(crate) fn product_of(alloc: Global, xs: &[Term], ys: &[Term]) -> Result<Vec<Term>, AllocError>
    requires xs { T (is_canonical xs.now) }
    requires ys { T (is_canonical ys.now) }
    requires small { size_of xs.now * size_of ys.now < 2 ^ 126 }
    requires degree { degree_of xs.now + degree_of ys.now < 2 ^ 30 }
    ensures { IfOk result (λ product. product.items ≡ collect (products xs.now ys.now)) }
{
    if xs.is_empty() {
        return Ok(Vec::new(alloc));
    }
    if xs.len() == 1 {
        return multiples_of(alloc, xs[0], ys);
    }
    let (left, right) = xs.split_at(xs.len() / 2);
    let left = product_of(alloc, left, ys)?;
    let right = product_of(alloc, right, ys)?;
    sum_of(alloc, &left, &right)
}
