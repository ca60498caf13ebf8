//! Laws of finite fields: functions without parameters, each of which publishes its clause.

ghost use Rattle.lie_field.specs.FieldLaws.{FieldsAreFields, GeneratorsGenerate, ElementsAreQuotient, FaultsExclude, FieldsHaveNoFault, TestIsExact};
ghost use Rattle.lie_field.specs.Units.{UnitsHavePowers};

/// Every finite field is a field.
pub fn fields_are_fields()
    ensures { FieldsAreFields }
{}

/// The powers `g^0 .. g^(q-2)` are all elements but 0, each once.
pub fn generators_generate()
    ensures { GeneratorsGenerate }
{}

/// The powers of units by integers: of 1, of a product, and with a sum, a product or a negative as
/// exponent.
pub fn units_have_powers()
    ensures { UnitsHavePowers }
{}

/// The elements are the polynomials modulo p and f: sums are carried to sums and products to
/// products, each element is reached, and p and f go to 0.
pub fn elements_are_quotient()
    ensures { ElementsAreQuotient }
{}

/// But for want of memory, at most one fault is true of given data.
pub fn faults_exclude()
    ensures { FaultsExclude }
{}

/// No fault but want of memory is true of a field within the limits.
pub fn fields_have_no_fault()
    ensures { FieldsHaveNoFault }
{}

/// The test that each field's value carries is passed exactly by the data of a field.
pub fn test_is_exact()
    ensures { TestIsExact }
{}
