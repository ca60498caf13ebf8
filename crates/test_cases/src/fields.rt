//! Fields of many orders, the refusals, and the ring of a field.

ghost use Rattle.std.specs.Prelude.{◌≢◌, ◌<◌, IfOk, IsTrue};
ghost use Rattle.lie_ring.specs.Rings.{Fits};
ghost use Rattle.lie_field.specs.Quotient.{order};

use lie_field::{Fe, Field, FieldFault};
use lie_ring::{
    FromIntegers, Hom, Ints, Ring, RingStop, roomy_add, roomy_copy, roomy_mul, roomy_neg,
    roomy_of_int, roomy_one, roomy_zero,
};
use std::alloc::Global;
use std::process::Abort;
use test_rows::field_of_row;

/// The field of a row: its characteristic, the coefficients from the constant one up, and a generator.
fn field(rt: &impl Abort, alloc: Global, row: &str) -> Field {
    field_of_row(alloc, row).expect(rt, "a field")
}

/// The field of nine elements with x^2 = 1 + x, in which a + b x has the number a + 3 b.
fn nine(rt: &impl Abort, alloc: Global) -> Field {
    field(rt, alloc, "3 | 2 2 | 3")
}

fn element(rt: &impl Abort, field: &Field, n: u32) -> Fe
    ensures { result < order field.now.given }
{
    field.elem(n).expect(rt, "an element")
}

/// An element that is not 0.
fn unit(rt: &impl Abort, field: &Field, n: u32) -> Fe
    ensures below { result < order field.now.given }
    ensures not_zero { result ≢ 0 }
{
    let a = element(rt, field, n);
    assert!(rt; a.number() != 0);
    a
}

fn sum(rt: &impl Abort, field: &Field, a: u32, b: u32) -> u32 {
    field
        .add(element(rt, field, a), element(rt, field, b))
        .number()
}

fn product(rt: &impl Abort, field: &Field, a: u32, b: u32) -> u32 {
    field
        .mul(element(rt, field, a), element(rt, field, b))
        .number()
}

fn negative(rt: &impl Abort, field: &Field, a: u32) -> u32 {
    field.neg(element(rt, field, a)).number()
}

fn inverse(rt: &impl Abort, field: &Field, a: u32) -> u32 {
    field.inv(unit(rt, field, a)).number()
}

/// A power of an element that is not 0.
fn power(rt: &impl Abort, field: &Field, a: u32, e: i128) -> u32 {
    field.pow(unit(rt, field, a), e).number()
}

/// A power of zero.
fn power_of_zero(rt: &impl Abort, field: &Field, e: u32) -> u32 {
    field.pow(element(rt, field, 0), i128::from(e)).number()
}

/// The least exponent with which an element gives 1.
fn order_of(rt: &impl Abort, field: &Field, a: u32) -> u32 {
    for e in 1..field.q() {
        if power(rt, field, a, i128::from(e)) == 1 {
            return e;
        }
    }
    field.q()
}

#[test]
fn conway_fields(rt: HostRuntime) {
    // Conway polynomials, as GAP 4.12.1 has them.
    // the field, p, q, the number of x^(k-1), that of x x^(k-1)
    let cases = [
        ("2 | 1 1 | 2", 2, 4, 2, 3),
        ("2 | 1 1 0 | 2", 2, 8, 4, 3),
        ("3 | 2 2 | 3", 3, 9, 3, 4),
        ("2 | 1 1 0 0 | 2", 2, 16, 8, 3),
        ("5 | 2 4 | 5", 5, 25, 5, 8),
        ("3 | 1 2 0 | 3", 3, 27, 9, 5),
        ("7 | 3 6 | 7", 7, 49, 7, 11),
        ("11 | 2 7 | 11", 11, 121, 11, 53),
        ("5 | 3 3 0 | 5", 5, 125, 25, 12),
        ("2 | 1 1 0 0 0 0 0 | 2", 2, 128, 64, 3),
        ("3 | 1 2 0 0 0 | 3", 3, 243, 81, 5),
        ("2 | 1 0 1 1 1 0 0 0 | 2", 2, 256, 128, 29),
    ];
    for (row, p, q, high, image) in cases {
        let field = field(&rt, rt.alloc(), row);
        assert_eq!(rt; (field.p(), field.q()), (p, q));
        assert_eq!(rt; product(&rt, &field, p, high), image);
        assert_eq!(rt;
            Some(order_of(&rt, &field, p)),
            q.checked_sub(1),
            "in the field of {q}"
        );
    }
}

/// The fault of the first k coefficients, if they are not those of a field.
fn fault(alloc: Global, p: u32, k: usize, coefficients: &[u32; 3], g: u32) -> Option<FieldFault> {
    let k = k.min(3);
    Field::load(alloc, p, k as u32, &coefficients[..k], g).err()
}

#[test]
fn refusals(rt: HostRuntime) {
    // p, the degree, the coefficients from the constant one up, g, the fault
    let cases = [
        (3, 2, [1, 0, 0], 3, FieldFault::Generator(4)),
        (4, 1, [0, 0, 0], 3, FieldFault::Generator(2)),
        (5, 1, [0, 0, 0], 4, FieldFault::Generator(2)),
        (5, 1, [0, 0, 0], 0, FieldFault::Element),
        (5, 1, [0, 0, 0], 5, FieldFault::Element),
        (257, 1, [0, 0, 0], 3, FieldFault::Size),
        (1, 1, [0, 0, 0], 0, FieldFault::Size),
        (5, 0, [0, 0, 0], 1, FieldFault::Size),
        (16, 3, [1, 1, 1], 2, FieldFault::Size),
        (5, 1, [7, 0, 0], 2, FieldFault::Coefficient(0)),
        (3, 3, [2, 3, 4], 0, FieldFault::Coefficient(1)),
    ];
    for (p, k, coefficients, g, expected) in &cases {
        let fault = fault(rt.alloc(), *p, *k, coefficients, *g);
        assert_eq!(rt; fault.as_ref(), Some(expected));
    }
}

#[test]
fn sums_and_products_over_nine(rt: HostRuntime) {
    let field = nine(&rt, rt.alloc());
    // a, b, a + b, a b
    let cases = [
        (4, 5, 6, 3),
        (4, 8, 0, 1),
        (0, 4, 4, 0),
        (4, 0, 4, 0),
        (3, 4, 7, 7),
    ];
    for (a, b, s, p) in cases {
        assert_eq!(rt;
            (sum(&rt, &field, a, b), product(&rt, &field, a, b)),
            (s, p)
        );
    }
    // a, -a, and 1 / a
    for (a, n, i) in [(1, 2, 1), (3, 6, 5), (4, 8, 8), (6, 3, 7)] {
        assert_eq!(rt; (negative(&rt, &field, a), inverse(&rt, &field, a)), (n, i));
    }
}

/// The characteristic, and the degree over its prime field.
fn shape(field: &Field) -> (u32, u32) {
    (field.p(), field.k())
}

/// Whether an element has this number.
fn has_element(field: &Field, n: u32) -> bool {
    field.elem(n).is_some()
}

#[test]
fn powers_over_nine(rt: HostRuntime) {
    let field = nine(&rt, rt.alloc());
    assert_eq!(rt; shape(&field), (3, 2));
    assert!(rt; !has_element(&field, 9));
    // e, x^e
    let cases = [
        (0, 1),
        (4, 2),
        (-1, 5),
        (-3, 6),
        (8, 1),
        (i128::MIN, 1),
        (i128::MAX, 5),
    ];
    for (e, image) in cases {
        assert_eq!(rt; power(&rt, &field, 3, e), image, "x^{e}");
    }
    assert_eq!(rt;
        (power_of_zero(&rt, &field, 0), power_of_zero(&rt, &field, 5)),
        (1, 0)
    );
}

/// Whether c (a + b) is c a + c b.
fn distributes<R: Ring>(
    ring: &R,
    alloc: Global,
    a: &R::Elem,
    b: &R::Elem,
    c: &R::Elem,
) -> Result<bool, RingStop>
    requires a { Fits (R.ring ring.now) a.now }
    requires b { Fits (R.ring ring.now) b.now }
    requires c { Fits (R.ring ring.now) c.now }
    ensures { IfOk result IsTrue }
{
    let whole = ring.mul(alloc, c, &ring.add(alloc, a, b)?)?;
    let left = ring.mul(alloc, c, a)?;
    let right = ring.mul(alloc, c, b)?;
    Ok(ring.same(&whole, &ring.add(alloc, &left, &right)?))
}

/// Whether c (a + b) is c a + c b, of elements with these numbers.
fn distributes_over(rt: &impl Abort, alloc: Global, field: &Field, a: u32, b: u32, c: u32) -> bool {
    let (a, b) = (element(rt, field, a), element(rt, field, b));
    distributes(field, alloc, &a, &b, &element(rt, field, c)).expect(rt, "memory")
}

#[test]
fn laws_through_the_bound(rt: HostRuntime) {
    let alloc = rt.alloc();
    assert_eq!(rt; distributes(&Ints, alloc, &3, &-5, &7), Ok(true));
    assert_eq!(rt;
        distributes(&Ints, alloc, &1, &1, &(1 << 125)),
        Err(RingStop::Wide)
    );
    let field = nine(&rt, alloc);
    assert!(rt; distributes_over(&rt, alloc, &field, 4, 8, 8));
}

/// The numbers of a + b, a a and -a, by the calls of a ring with room for all its elements.
fn roomy(rt: &impl Abort, alloc: Global, field: &Field, a: u32, b: u32) -> (u32, u32, u32) {
    let (a, b) = (element(rt, field, a), element(rt, field, b));
    let sum = roomy_add(field, alloc, &a, &b).expect(rt, "memory");
    let square = roomy_mul(field, alloc, &a, &a).expect(rt, "memory");
    let negative = roomy_neg(field, alloc, &a).expect(rt, "memory");
    (sum.number(), square.number(), negative.number())
}

/// Whether an element is the same as the copy of another.
fn same_as_copy(rt: &impl Abort, alloc: Global, field: &Field, a: u32, b: u32) -> bool {
    let (a, b) = (element(rt, field, a), element(rt, field, b));
    field.same(&a, &roomy_copy(field, alloc, &b).expect(rt, "memory"))
}

#[test]
fn calls_of_a_roomy_ring(rt: HostRuntime) {
    let alloc = rt.alloc();
    let field = nine(&rt, alloc);
    assert_eq!(rt; roomy(&rt, alloc, &field, 3, 4), (7, 4, 6));
    assert!(rt; same_as_copy(&rt, alloc, &field, 3, 3));
    assert!(rt; !same_as_copy(&rt, alloc, &field, 3, 4));
}

/// The numbers of zero, one and an integer.
fn constants(rt: &impl Abort, alloc: Global, field: &Field, n: i128) -> (u32, u32, u32) {
    let zero = roomy_zero(field, alloc).expect(rt, "memory");
    let one = roomy_one(field, alloc).expect(rt, "memory");
    let image = roomy_of_int(field, alloc, n).expect(rt, "memory");
    (zero.number(), one.number(), image.number())
}

/// The image of -7, and the ring that it is sent from and the order of the field.
fn image_of_integer(rt: &impl Abort, alloc: Global, field: &Field) -> (u32, Ints, u32) {
    let hom = FromIntegers::new(&Ints, field);
    let image = hom.image(alloc, &-7).expect(rt, "memory");
    (image.number(), *hom.src(), hom.dst().q())
}

#[test]
fn integers_in_a_roomy_ring(rt: HostRuntime) {
    let alloc = rt.alloc();
    let field = nine(&rt, alloc);
    assert_eq!(rt; constants(&rt, alloc, &field, 10), (0, 1, 1));
    assert_eq!(rt; Fe::zero().number(), 0);
    assert_eq!(rt; image_of_integer(&rt, alloc, &field), (2, Ints, 9));
}
