//! The polynomial (t + u)(t - u), its values over five elements, differences, and refusals.

ghost use Rattle.std.specs.Prelude.{◌≡◌, ◌<◌, ◌^◌, nat_abs};
ghost use Rattle.lie_ring.specs.Matrices.{AllFit};
ghost use Rattle.lie_ring.specs.Rings.{Fits};
ghost use Rattle.lie_field.specs.Units.{IsUnit};
ghost use Rattle.lie_poly.specs.Polynomials.{laurent};

use lie_field::{Fe, Field};
use lie_mat::Mat;
use lie_poly::{Evaluate, Laurent, Poly};
use lie_ring::{Hom, Ring, RingStop};
use std::alloc::Global;
use std::process::Abort;
use test_rows::field_of_row;

/// A polynomial whose coefficients are small enough to calculate with.
#[derive(Drop)]
struct Sample {
    polynomial: Poly,
    ghost fits: { Fits laurent polynomial },
}

/// c t^i u^j.
fn term(alloc: Global, c: i128, i: i32, j: i32) -> Result<Sample, RingStop>
    requires t_small { nat_abs i < 2 ^ 30 }
    requires u_small { nat_abs j < 2 ^ 30 }
{
    let polynomial = Poly::term(alloc, c, i, j)?;
    Ok(Sample { polynomial })
}

fn constant(alloc: Global, n: i128) -> Result<Sample, RingStop> {
    let polynomial = Laurent.of_int(alloc, n)?;
    Ok(Sample { polynomial })
}

fn sum(alloc: Global, a: &Sample, b: &Sample) -> Result<Sample, RingStop> {
    let polynomial = Laurent.add(alloc, &a.polynomial, &b.polynomial)?;
    Ok(Sample { polynomial })
}

fn negative(alloc: Global, a: &Sample) -> Result<Sample, RingStop> {
    let polynomial = Laurent.neg(alloc, &a.polynomial)?;
    Ok(Sample { polynomial })
}

fn product(alloc: Global, a: &Sample, b: &Sample) -> Result<Sample, RingStop> {
    let polynomial = Laurent.mul(alloc, &a.polynomial, &b.polynomial)?;
    Ok(Sample { polynomial })
}

fn copy(alloc: Global, a: &Sample) -> Result<Sample, RingStop> {
    let polynomial = Laurent.copy(alloc, &a.polynomial)?;
    Ok(Sample { polynomial })
}

fn zero(alloc: Global) -> Result<Sample, RingStop> {
    let polynomial = Laurent.zero(alloc)?;
    Ok(Sample { polynomial })
}

fn one(alloc: Global) -> Result<Sample, RingStop> {
    let polynomial = Laurent.one(alloc)?;
    Ok(Sample { polynomial })
}

fn same(a: &Sample, b: &Sample) -> bool {
    Laurent.same(&a.polynomial, &b.polynomial)
}

fn coefficient(a: &Sample, i: i32, j: i32) -> i128 {
    a.polynomial.coeff(i, j)
}

/// The least exponents at which the coefficients differ, and the coefficients there.
fn difference(a: &Sample, b: &Sample) -> Option<(i32, i32, i128, i128)> {
    a.polynomial.first_difference(&b.polynomial)
}

fn is_wide(found: Result<Sample, RingStop>) -> bool {
    matches!(found, Err(RingStop::Wide))
}

/// (t + u)(t - u).
fn worked(alloc: Global) -> Result<Sample, RingStop> {
    let t = term(alloc, 1, 1, 0)?;
    let u = term(alloc, 1, 0, 1)?;
    let sum_of_both = sum(alloc, &t, &u)?;
    let difference_of_both = sum(alloc, &t, &negative(alloc, &u)?)?;
    product(alloc, &sum_of_both, &difference_of_both)
}

/// The field of five elements.
fn five(rt: &impl Abort, alloc: Global) -> Field {
    field_of_row(alloc, "5 | 0 | 2").expect(rt, "a field")
}

fn unit(rt: &impl Abort, field: &Field, n: u32) -> Fe
    ensures { IsUnit field.now result }
{
    let a = field.elem(n).expect(rt, "an element");
    assert!(rt; a.number() != 0);
    a
}

/// The value at two units.
fn value(rt: &impl Abort, field: &Field, a: &Sample, t: u32, u: u32) -> u32 {
    let (t, u) = (unit(rt, field, t), unit(rt, field, u));
    a.polynomial.at(field, t, u).number()
}

/// The image under evaluation at two units.
fn image(rt: &impl Abort, alloc: Global, field: &Field, a: &Sample, t: u32, u: u32) -> u32 {
    let evaluate = Evaluate::new(&Laurent, field, unit(rt, field, t), unit(rt, field, u));
    evaluate
        .image(alloc, &a.polynomial)
        .expect(rt, "memory")
        .number()
}

/// The matrix of one entry.
fn matrix(rt: &impl Abort, alloc: Global, a: Sample) -> Mat<Laurent>
    ensures rows { result.height ≡ 1 }
    ensures cols { result.width ≡ 1 }
    ensures fit { AllFit laurent result }
{
    let mut matrix = Mat::zero(alloc, 1, 1).expect(rt, "memory");
    matrix
        .set(&Laurent, 0, 0, a.polynomial)
        .expect(rt, "memory");
    matrix
}

/// The image of the matrix of one entry under evaluation at two units: the number of its entry.
fn image_of_entry(
    rt: &impl Abort,
    alloc: Global,
    field: &Field,
    a: Sample,
    t: u32,
    u: u32,
) -> Option<u32> {
    let evaluate = Evaluate::new(&Laurent, field, unit(rt, field, t), unit(rt, field, u));
    let matrix = matrix(rt, alloc, a);
    let image = matrix.map(alloc, &evaluate).expect(rt, "memory");
    image.get(0, 0).map(|e| e.number())
}

#[test]
fn coefficients_of_product(rt: HostRuntime) {
    let product = worked(rt.alloc()).expect(&rt, "memory");
    // exponents of t and u, coefficient
    let cases = [
        (2, 0, 1),
        (0, 2, -1),
        (1, 1, 0),
        (0, 0, 0),
        (-2, 0, 0),
        (0, -2, 0),
    ];
    for (i, j, c) in cases {
        assert_eq!(rt; coefficient(&product, i, j), c, "at t^{i} u^{j}");
    }
}

/// t^2 - u^2.
fn difference_of_squares(alloc: Global) -> Result<Sample, RingStop> {
    sum(alloc, &term(alloc, 1, 2, 0)?, &term(alloc, -1, 0, 2)?)
}

#[test]
fn product_is_difference_of_squares(rt: HostRuntime) {
    let alloc = rt.alloc();
    let product = worked(alloc).expect(&rt, "memory");
    let square = term(alloc, 1, 2, 0).expect(&rt, "memory");
    assert_eq!(rt; difference(&product, &square), Some((0, 2, -1, 0)));
    assert!(rt; !same(&product, &square));
    let squares = difference_of_squares(alloc).expect(&rt, "memory");
    assert!(rt; same(&product, &squares));
    let copy = copy(alloc, &product).expect(&rt, "memory");
    assert!(rt; same(&product, &copy));
}

#[test]
fn values_over_five(rt: HostRuntime) {
    let alloc = rt.alloc();
    let product = worked(alloc).expect(&rt, "memory");
    let field = five(&rt, alloc);
    assert_eq!(rt; value(&rt, &field, &product, 3, 1), 3);
    assert_eq!(rt; image(&rt, alloc, &field, &product, 3, 1), 3);
    assert_eq!(rt; image_of_entry(&rt, alloc, &field, product, 3, 1), Some(3));
}

#[test]
fn evaluation_is_from_polynomials_to_field(rt: HostRuntime) {
    let field = five(&rt, rt.alloc());
    let (t, u) = (unit(&rt, &field, 3), unit(&rt, &field, 1));
    let evaluate = Evaluate::new(&Laurent, &field, t, u);
    assert_eq!(rt; (evaluate.src(), evaluate.dst().q()), (&Laurent, 5));
}

#[test]
fn value_of_negative_exponent(rt: HostRuntime) {
    let field = five(&rt, rt.alloc());
    // -7 t^-1 u^2 at t = 3, u = 2 is 3 * 2 * 4 = 4 modulo 5
    let negative = term(rt.alloc(), -7, -1, 2).expect(&rt, "memory");
    assert_eq!(rt; value(&rt, &field, &negative, 3, 2), 4);
}

/// 1 - 1.
fn one_less_one(alloc: Global) -> Result<Sample, RingStop> {
    let one = one(alloc)?;
    sum(alloc, &one, &negative(alloc, &one)?)
}

#[test]
fn zero_and_one(rt: HostRuntime) {
    let alloc = rt.alloc();
    let zero = zero(alloc).expect(&rt, "memory");
    let one = one(alloc).expect(&rt, "memory");
    let integer = constant(alloc, 1).expect(&rt, "memory");
    assert!(rt; same(&one, &integer) && !same(&one, &zero));
    let difference = one_less_one(alloc).expect(&rt, "memory");
    assert!(rt; same(&difference, &zero));
}

#[test]
fn first_differences(rt: HostRuntime) {
    let alloc = rt.alloc();
    // coefficient and exponents of two terms, and where they first differ
    let cases: [((i8, i8, i8), (i8, i8, i8), Option<(i32, i32, i128, i128)>); 5] = [
        ((1, -1, 0), (1, 0, 0), Some((-1, 0, 1, 0))),
        ((1, 0, 0), (1, -1, 2), Some((-1, 2, 0, 1))),
        ((1, 2, -3), (1, 2, 1), Some((2, -3, 1, 0))),
        ((1, 2, 3), (4, 2, 3), Some((2, 3, 1, 4))),
        ((5, -2, -2), (5, -2, -2), None),
    ];
    for (first, second, expected) in cases {
        let (a, b) = (small(&rt, alloc, first), small(&rt, alloc, second));
        assert_eq!(rt; difference(&a, &b), expected);
    }
}

/// The term of a coefficient and two exponents.
fn small(rt: &impl Abort, alloc: Global, (c, i, j): (i8, i8, i8)) -> Sample {
    term(alloc, i128::from(c), i32::from(i), i32::from(j)).expect(rt, "memory")
}

#[test]
fn too_wide(rt: HostRuntime) {
    let alloc = rt.alloc();
    let limit = 1 << 126;
    assert!(rt; is_wide(constant(alloc, limit)));
    assert!(rt; is_wide(term(alloc, limit, -1, 1)));
    assert!(rt; is_wide(term(alloc, -limit, 0, 0)));
}

#[test]
fn too_wide_sums_and_products(rt: HostRuntime) {
    let alloc = rt.alloc();
    let half = term(alloc, 1 << 125, 1, 0).expect(&rt, "memory");
    let other = term(alloc, -(1 << 125), 0, 1).expect(&rt, "memory");
    assert!(rt; is_wide(sum(alloc, &half, &other)));
    let two = constant(alloc, 2).expect(&rt, "memory");
    assert!(rt; is_wide(product(alloc, &half, &two)));
    let high = term(alloc, 1, 1 << 29, -(1 << 29)).expect(&rt, "memory");
    assert!(rt; is_wide(product(alloc, &high, &high)));
}
