//! The integers at the bound of their sizes.

use crate::{Ints, Ring, RingStop};

const TOP: i128 = (1 << 126) - 1;

#[test]
fn integers_up_to_the_bound(rt: HostRuntime) {
    let alloc = rt.alloc();
    // a, b, and a + b
    let sums = [
        (2, -5, Ok(-3)),
        (TOP, 0, Ok(TOP)),
        (-TOP + 1, 1, Ok(-TOP + 2)),
        (TOP, -1, Err(RingStop::Wide)),
        (-TOP, -TOP, Err(RingStop::Wide)),
    ];
    for (a, b, sum) in &sums {
        assert_eq!(rt; &Ints.add(alloc, a, b), sum, "{a} + {b}");
    }
    // a, b, and a b
    let products = [
        (6, -7, Ok(-42)),
        (TOP, -1, Ok(-TOP)),
        (1 << 63, (1 << 63) - 1, Ok((1 << 126) - (1 << 63))),
        (1 << 63, 1 << 63, Err(RingStop::Wide)),
        (-TOP, 3, Err(RingStop::Wide)),
    ];
    for (a, b, product) in &products {
        assert_eq!(rt; &Ints.mul(alloc, a, b), product, "{a} {b}");
    }
    // n, and its image
    let images = [
        (0, Ok(0)),
        (-TOP, Ok(-TOP)),
        (TOP + 1, Err(RingStop::Wide)),
        (i128::MIN, Err(RingStop::Wide)),
    ];
    for (n, image) in &images {
        assert_eq!(rt; &Ints.of_int(alloc, *n), image, "{n}");
    }
}

#[test]
fn other_calls_of_the_integers(rt: HostRuntime) {
    let alloc = rt.alloc();
    assert_eq!(rt; Ints.zero(alloc), Ok(0));
    assert_eq!(rt; Ints.one(alloc), Ok(1));
    assert_eq!(rt; Ints.neg(alloc, &TOP), Ok(-TOP));
    assert_eq!(rt; Ints.copy(alloc, &-4), Ok(-4));
    assert!(rt; Ints.same(&3, &3) && !Ints.same(&3, &-3));
}
