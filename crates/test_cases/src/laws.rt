//! Each law that is a public function of a crate, called once.

use lie_datum::Datum;
use lie_field::Field;
use lie_ring::FromIntegers;
use std::alloc::Global;
use std::process::Abort;
use test_rows::{A_2, NamedDatum};

/// A_2.
fn datum(rt: &impl Abort, alloc: Global) -> Datum {
    let named = NamedDatum::of(&A_2);
    Datum::load(alloc, 2, named.simple_roots(), named.simple_coroots()).expect(rt, "loads")
}

#[test]
fn laws_of_root_data(rt: HostRuntime) {
    let datum = datum(&rt, rt.alloc());
    datum.loaded();
    datum.laws();
    lie_datum::one_answer();
    lie_datum::form_law();
    lie_datum::root_pair_law();
    lie_datum::height_law();
    lie_datum::reflection_law();
    lie_datum::simple_reflection_law();
    lie_datum::simples_first();
}

#[test]
fn laws_of_weyl_elements(_rt: HostRuntime) {
    lie_weyl::one_factor_more();
    lie_weyl::inverse_lengths();
    lie_weyl::shortest_words();
    lie_weyl::exchange();
    lie_weyl::greedy_is_least();
    lie_weyl::orders_of_products();
    lie_weyl::images_determine_action();
}

#[test]
fn laws_of_constants(rt: HostRuntime) {
    lie_const::one_table(&datum(&rt, rt.alloc()));
    lie_const::one_answer();
}

#[test]
fn laws_of_collection(_rt: HostRuntime) {
    lie_unip::collects_once::<Field>();
    lie_unip::drops_zeros::<Field>();
    lie_unip::joins_answers::<Field>();
    lie_unip::carries_answers::<FromIntegers<'_, Field>>();
}
