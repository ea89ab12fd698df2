use crate::limits::OCTETS_MAX;

/// The kind of a column's values.
#[derive(Clone, Copy, PartialEq, Eq)]
pub enum Kind {
    /// A signed number of 64 bits, eight bytes wide.
    Int,
    /// This many bytes. A column may have 1 to 64.
    Octets(u8),
}

impl Kind {
    ghost use Rattle.std.specs.Prelude.{◌≡◌, ◌<◌};
    ghost use Rattle.rows.specs.Shape.{width_of, is_good};
    ghost use Rattle.rows.specs.Spelling.{kind_code};

    /// How many bytes a value of this kind takes in a row.
    pub fn width(self) -> usize
        ensures width { result ≡ width_of self }
        ensures few { result < 256 }
    {
        match self {
            Kind::Int => 8,
            Kind::Octets(width) => width as usize,
        }
    }

    /// The byte that stands for the kind: octets by their width.
    pub fn code(self) -> u8
        ensures { result ≡ kind_code self }
    {
        match self {
            Kind::Int => 0,
            Kind::Octets(width) => width,
        }
    }

    /// Whether a column may be of this kind: `Octets` are 1 to 64 bytes.
    pub fn is_good(self) -> bool
        ensures { result ≡ is_good self }
    {
        match self {
            Kind::Int => true,
            Kind::Octets(width) => width != 0 && width as usize <= OCTETS_MAX,
        }
    }
}
