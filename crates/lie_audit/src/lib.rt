//! What is asked of modules before words are read on them, and the matrices of words on modules over a finite field.
//!
//! `signs` reads the signs of lie_const's `specs/Signs.antt` off the adjoint module and answers the first that is not
//! as it should be; `braid` tests the braid values of lie_letters' `specs/Braids.antt`. `specs/SignAnswers.antt` says
//! what `signs` answers, `specs/SignParts.antt` how it gets there. `word_matrix` makes the matrix of a word, which is
//! that of `specs/WordMatrix.antt`. `audit` of `lie_identities`, which tests whether a module meets the relations of
//! its `specs/Audit.antt` as identities over the Laurent polynomials, is found here too, with the cover lines of an
//! `Audited`. On such a module joined words
//! have equal matrices over every finite field (`equal_matrices`, `specs/EqualMatrices.antt`), and the letters `n_i`
//! move weights as the reflections do (`weyl_moves_weights`, `specs/WeylWeights.antt`). The crate stands on
//! `lie_identities`, `lie_poly`, `lie_weight`, `lie_orbit`, `lie_dense`, `lie_letters`, `lie_field`, `lie_const`,
//! `lie_mat`, `lie_weyl`, `lie_datum`, `lie_ring`, `lie_base` and `thiserror`.
#![tactic(auto)]

mod braids;
mod entries;
mod faults;
mod laws;
mod letter_matrices;
mod sign_checks;
mod word_matrices;

pub use braids::braid;
pub use faults::{BraidFault, SignFault};
pub use laws::{
    equal_matrices, joined_words_multiply, one_adjoint, one_braid_answer, one_sign_answer,
    one_sign_table, weyl_moves_weights,
};
pub use lie_identities::{AuditFault, Audited, CoverFault, CoverSum, Rel, audit};
pub use sign_checks::signs;
pub use word_matrices::word_matrix;
