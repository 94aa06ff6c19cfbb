//! A place of a buffer at which a type stands.

ghost use Rattle.std.specs.Prelude.{◌≡◌, IsSome, IfErr, IfOk, Some, None, unwrap_or};
ghost use Rattle.vortex_terms.specs.Term.{null};
ghost use Rattle.vortex_terms.specs.Types.{Bounded};
ghost use Rattle.vortex_schema.specs.Reading.{bounded_type_at};
ghost use Rattle.vortex_schema.specs.TypeAt.{IsTypeAt};

use crate::budget::Budget;
use crate::error::Malformed;
use crate::node::{TypeNode, node_at};
use crate::walk::walk;
use vortex_flat::{Table, root};

/// How deep a type nests at most.
const MOST_LEVELS: usize = 64;

/// How many types a type has in it at most.
const MOST_NODES: usize = 1_000_000;

/// How many bytes the names, ids and metadata of a type have at most.
const MOST_TEXT: usize = 67_108_864;

/// A place of a buffer at which a type within the limits stands.
#[derive(Clone, Copy)]
pub struct TypeAt<'a> {
    bytes: &'a [u8],
    place: usize,
    ghost stands: { IsSome (bounded_type_at bytes.now place) },
}

impl<'a> TypeAt<'a> {
    ghost use Rattle.std.specs.Option.{option_map};
    ghost use Rattle.vortex_flat.specs.Table.{root_at};
    ghost use Rattle.vortex_schema.specs.Reading.{bounded_type_in};
    ghost use Rattle.vortex_schema.specs.Views.{node_term, term_at};

    /// The type at a place where one is known to stand.
    pub fn known(bytes: &'a [u8], place: usize) -> TypeAt<'a>
        requires { IsSome (bounded_type_at bytes.now place) }
        ensures { bounded_type_at bytes.now place ≡ Some (term_at result) }
    {
        TypeAt { bytes, place }
    }

    /// The type that stands at `place`. This walks it, and takes no memory.
    #[tactic(auto, using(crate::proofs::InPlace::no_table, crate::proofs::InPlace::walked, crate::proofs::InPlace::not_walked))]
    pub fn at(bytes: &'a [u8], place: usize) -> Result<TypeAt<'a>, Malformed>
        ensures found { IfOk result (λ at. bounded_type_at bytes.now place ≡ Some (term_at at)) }
        ensures place { IfOk result (λ at. (at.bytes.now ≡ bytes.now) × (at.place ≡ place)) }
        ensures refused { IfErr result (λ _. bounded_type_at bytes.now place ≡ None) }
    {
        let Ok(dtype) = Table::at(bytes, place) else {
            return Err(Malformed);
        };
        let whole = Budget {
            nodes: MOST_NODES,
            text: MOST_TEXT,
        };
        match walk(&dtype, MOST_LEVELS, whole) {
            Ok(_) => Ok(TypeAt { bytes, place }),
            Err(_) => Err(Malformed),
        }
    }

    /// The type that the buffer begins with the place of.
    #[tactic(auto, using(crate::proofs::InPlace::no_root, crate::proofs::InPlace::root_is))]
    pub fn root(bytes: &'a [u8]) -> Result<TypeAt<'a>, Malformed>
        ensures found { IfOk result (λ at. bounded_type_in bytes.now ≡ Some (term_at at)) }
        ensures place { IfOk result (λ at. (at.bytes.now ≡ bytes.now)
            × (option_map (λ t. t.place) (root_at bytes.now) ≡ Some at.place)) }
        ensures refused { IfErr result (λ _. bounded_type_in bytes.now ≡ None) }
    {
        let Ok(dtype) = root(bytes) else {
            return Err(Malformed);
        };
        TypeAt::at(bytes, dtype.place())
    }

    /// What is so at its place. This does nothing when the program runs.
    pub fn law(self)
        ensures stands { IsTypeAt self.entry.bytes.now self.entry.place (term_at self.entry) }
        ensures bounded { Bounded (term_at self.entry) }
    {
        known_law(self.bytes, self.place);
    }

    /// The type, with its parts left where they stand.
    pub fn node(self) -> TypeNode<'a>
        ensures { node_term result ≡ term_at self.entry }
    {
        node_at(self.bytes, self.place)
    }

    /// The bytes of the whole buffer.
    pub fn buffer(self) -> &'a [u8]
        ensures { result.now ≡ self.entry.bytes.now }
    {
        self.bytes
    }

    /// The place in the buffer.
    pub fn place(self) -> usize
        ensures { result ≡ self.entry.place }
    {
        self.place
    }
}

/// What is so where a type is known to stand.
fn known_law(bytes: &[u8], place: usize)
    requires { IsSome (bounded_type_at bytes.now place) }
    ensures stands { IsTypeAt bytes.now place (unwrap_or (bounded_type_at bytes.now place) null) }
    ensures bounded { Bounded (unwrap_or (bounded_type_at bytes.now place) null) }
{
    let _ = bytes;
}
