//! Frames of named data.

use lie_datum::Datum;
use lie_field::Field;
use lie_group::make_frame;
use std::alloc::Global;
use test_rows::{NamedDatum, field_of_row};

/// The datum of this name.
fn datum_of(alloc: Global, name: &str) -> Option<Datum> {
    let named = NamedDatum::named(name)?;
    let (roots, coroots) = (named.simple_roots(), named.simple_coroots());
    Datum::load(alloc, named.rank(), roots, coroots).ok()
}

/// The field of three elements.
fn field_of_three(alloc: Global) -> Option<Field> {
    field_of_row(alloc, "3 | 0 | 2").ok()
}

/// Whether the datum of this name has a frame over the field of three elements.
fn has_frame(alloc: Global, name: &str) -> bool {
    match field_of_three(alloc) {
        Some(field) => has_frame_over(alloc, field, name),
        None => false,
    }
}

/// Whether the datum of this name has a frame over a field.
fn has_frame_over(alloc: Global, field: Field, name: &str) -> bool {
    match datum_of(alloc, name) {
        Some(datum) => make_frame(alloc, field, datum).is_ok(),
        None => false,
    }
}

#[test]
fn named_data_have_frames(rt: HostRuntime) {
    for name in ["A_1", "A_2", "B_2", "G_2", "F_4"] {
        assert!(rt; has_frame(rt.alloc(), name), "{name}");
    }
}
