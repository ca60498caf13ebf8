//! The kinds of modules.

/// What the module of a line is made of.
#[derive(Clone, Copy, Debug, Drop, PartialEq, Eq)]
pub(crate) enum ModuleKind {
    /// The adjoint module.
    Adjoint,
    /// The module of the orbit of a weight.
    Orbit,
    /// The direct sum of two modules.
    Sum,
    /// The tensor product of two modules.
    Tensor,
    /// The dual of a module.
    Dual,
    /// A module by its weights and the entries of its matrices, which follow.
    Table,
}
