//! Small matrices over fields of two and of five elements, and the dimensions at the limits.

ghost use Rattle.std.specs.Prelude.{◌≡◌, ◌<◌, ◌≤◌};
ghost use Rattle.lie_ring.specs.Integers.{integers};
ghost use Rattle.lie_ring.specs.Matrices.{AllElem, AllFit};
ghost use Rattle.lie_field.specs.FieldRing.{field_ring};

use lie_dense::Dense;
use lie_field::{Fe, Field};
use lie_mat::Mat;
use lie_ring::{FromIntegers, Ints};
use std::alloc::Global;
use std::process::Abort;
use test_rows::field_of_row;

/// Writes an entry that is small.
fn put(rt: &impl Abort, matrix: &mut Mat<Ints>, row: usize, col: usize, n: i8)
    requires row { row < matrix.old.height }
    requires col { col < matrix.old.width }
    requires fit { AllFit integers matrix.old }
    ensures rows { matrix.new.height ≡ matrix.old.height }
    ensures cols { matrix.new.width ≡ matrix.old.width }
    ensures fit { AllFit integers matrix.new }
{
    matrix
        .set(&Ints, row, col, i128::from(n))
        .expect(rt, "memory");
}

/// The zero matrix of dimension 2.
fn zero_of_integers(rt: &impl Abort, alloc: Global) -> Mat<Ints>
    ensures rows { result.height ≡ 2 }
    ensures cols { result.width ≡ 2 }
    ensures fit { AllFit integers result }
{
    Mat::zero(alloc, 2, 2).expect(rt, "memory")
}

/// The matrix of integers with the rows `a b` and `c d`.
fn square(rt: &impl Abort, alloc: Global, entries: [i8; 4]) -> Mat<Ints>
    ensures rows { result.height ≡ 2 }
    ensures cols { result.width ≡ 2 }
    ensures fit { AllFit integers result }
{
    let [a, b, c, d] = entries;
    let mut matrix = zero_of_integers(rt, alloc);
    put(rt, &mut matrix, 0, 0, a);
    put(rt, &mut matrix, 0, 1, b);
    put(rt, &mut matrix, 1, 0, c);
    put(rt, &mut matrix, 1, 1, d);
    matrix
}

/// The matrix of the images of integers in the field.
fn dense(rt: &impl Abort, alloc: Global, field: &Field, entries: [i8; 4]) -> Dense
    ensures rows { result.height ≡ 2 }
    ensures cols { result.width ≡ 2 }
    ensures elem { AllElem (field_ring field.now) result }
{
    Dense::of_ints(alloc, field, &square(rt, alloc, entries)).expect(rt, "memory")
}

/// The numbers of the entries of a matrix of dimension 2, row after row.
fn numbers(rt: &impl Abort, matrix: &Dense) -> [u32; 4] {
    assert!(rt; matrix.dim() == 2);
    [
        matrix.get(0, 0).number(),
        matrix.get(0, 1).number(),
        matrix.get(1, 0).number(),
        matrix.get(1, 1).number(),
    ]
}

/// The product of the images of two matrices of integers.
fn product(rt: &impl Abort, alloc: Global, field: &Field, a: [i8; 4], b: [i8; 4]) -> Dense {
    let (a, b) = (dense(rt, alloc, field, a), dense(rt, alloc, field, b));
    a.mul(alloc, field, &b).expect(rt, "memory")
}

/// The identity of dimension 2.
fn one(rt: &impl Abort, alloc: Global, field: &Field) -> Dense
    ensures rows { result.height ≡ 2 }
    ensures cols { result.width ≡ 2 }
    ensures elem { AllElem (field_ring field.now) result }
{
    Dense::identity(alloc, field, 2).expect(rt, "memory")
}

/// The product of the image of a matrix of integers with the identity.
fn times_one(rt: &impl Abort, alloc: Global, field: &Field, entries: [i8; 4]) -> Dense {
    let (one, matrix) = (one(rt, alloc, field), dense(rt, alloc, field, entries));
    matrix.mul(alloc, field, &one).expect(rt, "memory")
}

/// Whether two matrices of one dimension are equal.
fn same(rt: &impl Abort, a: &Dense, b: &Dense) -> bool {
    assert!(rt; a.dim() == b.dim());
    a.same(b)
}

#[test]
fn matrices_over_two(rt: HostRuntime) {
    let alloc = rt.alloc();
    let field = field_of_row(alloc, "2 | 0 | 1").expect(&rt, "a field");
    let entries = [2, 1, 1, 1];
    let matrix = dense(&rt, alloc, &field, entries);
    assert_eq!(rt; numbers(&rt, &matrix), [0, 1, 1, 1]);
    let twice = product(&rt, alloc, &field, entries, entries);
    assert_eq!(rt; numbers(&rt, &twice), [1, 1, 1, 0]);
    assert!(rt; same(&rt, &times_one(&rt, alloc, &field, entries), &matrix));
    assert!(rt; !same(&rt, &twice, &matrix));
    let zero = Dense::zero(alloc, 2).expect(&rt, "memory");
    assert_eq!(rt; numbers(&rt, &zero), [0, 0, 0, 0]);
}

/// The image of a matrix of integers, with a zero in row 2 and column 1.
fn with_zero(rt: &impl Abort, alloc: Global, field: &Field, entries: [i8; 4]) -> Dense {
    let mut matrix = dense(rt, alloc, field, entries);
    matrix.set(1, 0, Fe::zero());
    matrix
}

/// The number in row 2 and column 1 of the image of a matrix of integers, by the calls of lie_mat.
fn entry_of_image(rt: &impl Abort, alloc: Global, field: &Field, entries: [i8; 4]) -> Option<u32> {
    let hom = FromIntegers::new(&Ints, field);
    let image = square(rt, alloc, entries)
        .map(alloc, &hom)
        .expect(rt, "memory");
    image.get(1, 0).map(|e| e.number())
}

#[test]
fn matrices_over_five(rt: HostRuntime) {
    let alloc = rt.alloc();
    let field = field_of_row(alloc, "5 | 0 | 2").expect(&rt, "a field");
    let entries = [1, 2, -2, 4];
    assert_eq!(rt;
        numbers(&rt, &dense(&rt, alloc, &field, entries)),
        [1, 2, 3, 4]
    );
    // 1 + 6, 2 + 8, 3 + 12, 6 + 16
    let twice = product(&rt, alloc, &field, entries, entries);
    assert_eq!(rt; numbers(&rt, &twice), [2, 0, 0, 2]);
    assert_eq!(rt; entry_of_image(&rt, alloc, &field, entries), Some(3));
    assert_eq!(rt;
        numbers(&rt, &with_zero(&rt, alloc, &field, entries)),
        [1, 2, 0, 4]
    );
}

/// The identity of a dimension, and its square.
fn identities(rt: &impl Abort, alloc: Global, field: &Field, n: usize) -> (Dense, Dense)
    requires { n ≤ 1024 }
{
    let one = Dense::identity(alloc, field, n).expect(rt, "memory");
    let square = one.mul(alloc, field, &one).expect(rt, "memory");
    (one, square)
}

#[test]
fn dimensions_at_the_limits(rt: HostRuntime) {
    let alloc = rt.alloc();
    let field = field_of_row(alloc, "5 | 0 | 2").expect(&rt, "a field");
    for n in [0, 1, 1024] {
        let zero = Dense::zero(alloc, n).expect(&rt, "memory");
        let (one, square) = identities(&rt, alloc, &field, n);
        assert_eq!(rt; (one.dim(), same(&rt, &zero, &one)), (n, n == 0));
        assert!(rt; same(&rt, &square, &one), "of dimension {n}");
    }
}
