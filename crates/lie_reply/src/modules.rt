//! The replies to `module`, `cover` and `matrix`.
ghost use Rattle.std.specs.Prelude.{◌≡◌, ◌<◌, ◌++◌, OnOk, IfOk};
ghost use Rattle.lie_reply.specs.Modules.{module_text as text_of_module, covered_text as text_of_cover, row_text, matrix_text as text_of_matrix};

use lie_dense::Dense;
use lie_script::{Text, put_number};
use std::alloc::{AllocError, Global};

/// `module <name> <dimension>`.
pub fn module_text(alloc: Global, name: &[u8], dimension: usize) -> Result<Text, AllocError>
    ensures { IfOk result (λ text. text ≡ text_of_module name.now dimension) }
{
    let mut out = Vec::from_slice(alloc, b"module ")?;
    out.extend_from_slice(name)?;
    out.extend_from_slice(b" ")?;
    put_number(&mut out, dimension as i128)?;
    out.extend_from_slice(b"\n")?;
    Ok(Text::of(out))
}

/// `covered <name> <coordinate>`.
pub fn covered_text(alloc: Global, name: &[u8], axis: usize) -> Result<Text, AllocError>
    ensures { IfOk result (λ text. text ≡ text_of_cover name.now axis) }
{
    let mut out = Vec::from_slice(alloc, b"covered ")?;
    out.extend_from_slice(name)?;
    out.extend_from_slice(b" ")?;
    put_number(&mut out, axis as i128)?;
    out.extend_from_slice(b"\n")?;
    Ok(Text::of(out))
}

/// Appends the line of a row.
fn put_row(out: &mut Vec<u8>, matrix: &Dense, row: usize) -> Result<(), AllocError>
    requires { row < matrix.now.height }
    ensures { OnOk result (out.new.items ≡ out.old.items ++ row_text matrix.now row) }
{
    let n = matrix.dim();
    put_number(out, matrix.get(row, 0).number() as i128)?;
    'cols: for col in 1..n {
        out.extend_from_slice(b" ")?;
        put_number(out, matrix.get(row, col).number() as i128)?;
    }
    out.extend_from_slice(b"\n")
}

/// A line for each row of a matrix.
pub fn matrix_text(alloc: Global, matrix: &Dense) -> Result<Text, AllocError>
    ensures { IfOk result (λ text. text ≡ text_of_matrix matrix.now) }
{
    let mut out = Vec::new(alloc);
    'rows: for row in 0..matrix.dim() {
        put_row(&mut out, matrix, row)?;
    }
    Ok(Text::of(out))
}
