//! What follows from the definitions alone.

ghost use Rattle.lie_audit.specs.BraidAnswers.{OneBraidAnswer};
ghost use Rattle.lie_audit.specs.EqualMatrices.{EqualMatrices};
ghost use Rattle.lie_audit.specs.OneAdjoint.{OneAdjoint, OneSignTable};
ghost use Rattle.lie_audit.specs.SignAnswers.{OneSignAnswer};
ghost use Rattle.lie_audit.specs.WeylWeights.{WeylMovesWeights};
ghost use Rattle.lie_audit.specs.WordMatrix.{JoinedWordsMultiply};

/// A datum and its adjoint module have one answer of `signs`, want of memory aside.
pub fn one_sign_answer()
    ensures { OneSignAnswer }
{}

/// The matrix of a joined word is the product of those of its parts.
pub fn joined_words_multiply()
    ensures { JoinedWordsMultiply }
{}

/// A datum and its signs have one answer of `braid`.
pub fn one_braid_answer()
    ensures { OneBraidAnswer }
{}

/// A datum has one adjoint module.
pub fn one_adjoint()
    ensures { OneAdjoint }
{}

/// The signs of a module, all as they should be, stand in one table.
pub fn one_sign_table()
    ensures { OneSignTable }
{}

/// On a module that is audited for a lawful frame, words that are joined in its group have equal matrices over its
/// field.
pub fn equal_matrices()
    ensures { EqualMatrices }
{}

/// On an audited module `n_i` carries the basis vectors of a weight to those of the reflected weight, and a word in
/// the `n_i` to those of the weight under its reflections.
pub fn weyl_moves_weights()
    ensures { WeylMovesWeights }
{}
