//! Structs that contracts see as a type, as a row with its type, as fields, and as a path.

ghost use Rattle.std.specs.Prelude.{◌≡◌, length, pos};
ghost use Rattle.vortex_terms.specs.Term.{utf8, unsigned_8};
ghost use Rattle.vortex_terms.specs.Types.{nullable};
ghost use Rattle.vortex_terms.specs.Fits.{Fits, InRange};

use std::marker::Model;

/// A type of texts.
#[derive(Drop)]
pub struct TextType {
    nullable: bool,
}

impl Model for TextType {
    ghost use Rattle.vortex_terms.specs.Term.{Term, utf8};
    ghost use Rattle.vortex_terms.specs.TermCode.{coded_term};

    ghost Value = { Term };

    ghost coded = { coded_term };

    ghost view = { λ t. utf8 t.nullable };
}

impl TextType {
    /// The type of texts, nullable or not.
    pub fn new(nullable: bool) -> Self
        ensures { result ≡ utf8 nullable }
    {
        TextType { nullable }
    }

    /// Whether its rows may be null.
    pub fn is_nullable(&self) -> bool
        ensures { result ≡ nullable self.now }
    {
        self.nullable
    }
}

/// A byte is in the range of its kind.
fn in_range(byte: u8)
    ensures { InRange unsigned_8 (pos byte) }
{
    let _ = byte;
}

/// A byte or null, with its type.
#[derive(Drop)]
pub struct ByteScalar {
    value: Option<u8>,
}

impl Model for ByteScalar {
    ghost use Rattle.std.specs.Prelude.{true, pos};
    ghost use Rattle.std.specs.Coded.{coded×};
    ghost use Rattle.std.specs.Option.{option_map_or};
    ghost use Rattle.vortex_terms.specs.Term.{Term, primitive, unsigned_8};
    ghost use Rattle.vortex_terms.specs.Row.{Row, null_row, whole_row};
    ghost use Rattle.vortex_terms.specs.TermCode.{coded_term};
    ghost use Rattle.vortex_terms.specs.RowCode.{coded_row};

    ghost Value = { Term × Row };

    ghost coded = { coded× coded_term coded_row };

    ghost view = { λ s. (
      primitive unsigned_8 true,
      option_map_or (λ b. whole_row (pos b)) s.value
          null_row,
    ) };
}

impl ByteScalar {
    /// Its row fits its type.
    pub fn law(&self)
        ensures { Fits self.now.0 self.now.1 }
    {
        match self.value {
            None => {}
            Some(byte) => in_range(byte),
        }
    }
}

/// Names of truth values.
#[derive(Drop)]
pub struct Flags {
    names: Vec<Vec<u8>>,
}

impl Model for Flags {
    ghost use Rattle.std.specs.Prelude.{map, false};
    ghost use Rattle.vortex_terms.specs.Term.{Fields, boolean};
    ghost use Rattle.vortex_terms.specs.Types.{fields_from};
    ghost use Rattle.vortex_terms.specs.TermCode.{coded_fields};

    ghost Value = { Fields };

    ghost coded = { coded_fields };

    ghost view = { λ s. fields_from (map (λ x. x.items) s.names.items) (map (λ _. boolean false)
        s.names.items) };
}

/// A path of names.
#[derive(Drop)]
pub struct Path {
    names: Vec<Vec<u8>>,
}

impl Model for Path {
    ghost use Rattle.std.specs.Prelude.{List, map};
    ghost use Rattle.std.specs.Coded.{coded_list};
    ghost use Rattle.vortex_terms.specs.Path.{PathPart, by_name};
    ghost use Rattle.vortex_terms.specs.RowCode.{coded_path_part};

    ghost Value = { List PathPart };

    ghost coded = { coded_list coded_path_part };

    ghost view = { λ p. map (λ x. by_name x.items) p.names.items };
}

impl Path {
    /// How many steps the path has.
    pub fn len(&self) -> usize
        ensures { result ≡ length self.now }
    {
        self.names.len()
    }
}
