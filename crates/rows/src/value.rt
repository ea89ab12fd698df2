ghost use Rattle.std.specs.Prelude.{◌≡◌, FitsSigned};
ghost use Rattle.std.specs.Int.{w64};
ghost use Rattle.rows.specs.declared.kind.Kind.TheVariants as KindOf;

use crate::kind::Kind;
use crate::octets::Octets;

/// The value of one column of a row.
#[derive(Clone, Copy, Debug, PartialEq, Eq)]
pub enum Value {
    /// A signed number of 64 bits.
    Int(i64),
    /// Bytes, as many as its column is wide.
    Octets(Octets),
}

impl Value {
    ghost use Rattle.std.specs.Prelude.{◌≡◌, true};
    ghost use Rattle.rows.specs.Shape.{is_good};
    ghost use Rattle.rows.specs.Spelling.{IsColumnValue};
    ghost use Rattle.rows.specs.Values.{kind_of};

    /// The kind of a column that has this value.
    pub fn kind(&self) -> Kind
        ensures kind { result ≡ kind_of self.now }
        ensures good { is_good result ≡ true → IsColumnValue self.now }
    {
        match self {
            Value::Int(number) => int_kind(*number),
            Value::Octets(octets) => {
                let bytes = octets.as_slice();
                Kind::Octets(bytes.len() as u8)
            }
        }
    }
}

/// The kind of a number. The number matters only to the contract, which states that it fits.
fn int_kind(number: i64) -> Kind
    ensures kind { result ≡ KindOf.Int }
    ensures fits { FitsSigned w64 number }
{
    let _ = number;
    Kind::Int
}
