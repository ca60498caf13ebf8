//! The texts of numbers and refusals.
ghost use Rattle.std.specs.Prelude.{◌≡◌, ◌++◌, OnOk, OnErr, IfOk};
ghost use Rattle.std.specs.Fmt.{signed_decimal};
ghost use Rattle.lie_script.specs.Texts.{name_of, spaced as spaced_text, refusal as refusal_text};

use crate::faults::FaultName;
use crate::kept::Text;
use itoa::Buffer;
use std::alloc::{AllocError, Global};

/// Appends a number. Where no memory is left nothing is appended.
pub fn put_number(out: &mut Vec<u8>, n: i128) -> Result<(), AllocError>
    ensures appended { OnOk result (out.new.items ≡ out.old.items ++ signed_decimal n) }
    ensures left { OnErr result (out.new.items ≡ out.old.items) }
{
    let mut buffer = Buffer::new();
    out.extend_from_slice(buffer.format(n).as_bytes())
}

impl FaultName {
    /// The name as refusals print it.
    pub fn text(self) -> &'static [u8]
        ensures { result.now ≡ name_of self }
    {
        match self {
            FaultName::Long => b"long".as_slice(),
            FaultName::Byte => b"byte".as_slice(),
            FaultName::Command => b"command".as_slice(),
            FaultName::Unloaded => b"unloaded".as_slice(),
            FaultName::Order => b"order".as_slice(),
            FaultName::Fields => b"fields".as_slice(),
            FaultName::Number => b"number".as_slice(),
            FaultName::Range => b"range".as_slice(),
            FaultName::Root => b"root".as_slice(),
            FaultName::Simple => b"simple".as_slice(),
            FaultName::Letters => b"letters".as_slice(),
            FaultName::Letter => b"letter".as_slice(),
            FaultName::Torus => b"torus".as_slice(),
            FaultName::Value => b"value".as_slice(),
            FaultName::Opposite => b"opposite".as_slice(),
            FaultName::Name => b"name".as_slice(),
            FaultName::Kind => b"kind".as_slice(),
            FaultName::Unknown => b"unknown".as_slice(),
            FaultName::Taken => b"taken".as_slice(),
            FaultName::Full => b"full".as_slice(),
            FaultName::Sum => b"sum".as_slice(),
            FaultName::Outside => b"outside".as_slice(),
            FaultName::Size => b"size".as_slice(),
            FaultName::End => b"end".as_slice(),
        }
    }
}

/// Appends numbers, each after a space. Where no memory is left some of them are appended.
pub fn put_spaced(out: &mut Vec<u8>, numbers: &[i128]) -> Result<(), AllocError>
    ensures { OnOk result (out.new.items ≡ out.old.items ++ spaced_text numbers.now) }
{
    'spaced: for n in numbers {
        out.push(b' ')?;
        put_number(out, *n)?;
    }
    Ok(())
}

/// `refused <line> <name>`, then the numbers, each after a space.
pub fn refusal(
    alloc: Global,
    number: u64,
    name: &[u8],
    numbers: &[i128],
) -> Result<Text, AllocError>
    ensures { IfOk result (λ text. text ≡ refusal_text number name.now numbers.now) }
{
    let mut out = Vec::from_slice(alloc, b"refused ")?;
    put_number(&mut out, number as i128)?;
    out.push(b' ')?;
    out.extend_from_slice(name)?;
    put_spaced(&mut out, numbers)?;
    out.push(b'\n')?;
    Ok(Text::of(out))
}
