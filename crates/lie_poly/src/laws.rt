//! Laws of Laurent polynomials: functions without parameters, each of which publishes its clause.

ghost use Rattle.lie_poly.specs.Laws.{PolynomialsAreCoefficients, OperationsAreCoefficientwise, EvaluationIsHomomorphism, MonomialsHaveValues};

/// A Laurent polynomial is determined by its coefficients.
pub fn polynomials_are_coefficients()
    ensures { PolynomialsAreCoefficients }
{}

/// The coefficients of a sum are the sums, those of a negative the negatives, and those of a
/// product the convolutions; a monomial has one coefficient.
pub fn operations_are_coefficientwise()
    ensures { OperationsAreCoefficientwise }
{}

/// Evaluation at elements that are not 0 is a homomorphism to the field.
pub fn evaluation_is_homomorphism()
    ensures { EvaluationIsHomomorphism }
{}

/// The value of `c t^i u^j` is the product of c and the powers; a negative power is one of the
/// inverse.
pub fn monomials_have_values()
    ensures { MonomialsHaveValues }
{}
