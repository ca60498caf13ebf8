//! The names of modules.
ghost use Rattle.std.specs.Prelude.{◌≡◌, length, bytes_eq};
ghost use Rattle.std.specs.List.{IsDistinct};
ghost use Rattle.std.specs.Map.{keys_of};
ghost use Rattle.lie_script.specs.Names.{Listed, dimension_of};

/// A list of names with their dimensions.
pub trait Names {
    ghost listed: { Self → Listed };

    /// No two names are alike.
    ghost distinct: { (names : Self) → IsDistinct bytes_eq (keys_of (listed names)) };

    /// The dimension of the module of this name, if there is one.
    fn dim_of(&self, name: &[u8]) -> Option<usize>
        ensures { result ≡ dimension_of (listed self.now) name.now };

    /// The number of names.
    fn count(&self) -> usize
        ensures { result ≡ length (listed self.now) };
}

/// No names.
#[derive(Clone, Copy, Debug, Drop)]
pub struct NoNames;

impl Names for NoNames {
    ghost use Rattle.lie_script.specs.Names.{none_listed, none-repeats};

    ghost listed = { λ _. none_listed };

    ghost distinct = { λ _. none-repeats };

    fn dim_of(&self, _name: &[u8]) -> Option<usize> {
        None
    }

    fn count(&self) -> usize {
        0
    }
}
