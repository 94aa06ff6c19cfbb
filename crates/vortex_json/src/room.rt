//! Whether a type is within the limits, in one walk that ends as soon as it is not.

ghost use Rattle.std.specs.Prelude.{◌≡◌, ◌<◌, slice_get, Some};
ghost use Rattle.vortex_terms.specs.Types.{names_of, field_at, field_count, is_within};
ghost use Rattle.vortex_types.specs.TypeRefs.{fields_term, ref_term};
ghost use Rattle.vortex_json.specs.inner.Room.{Leaves, TypeLeaves, FieldsLeave};

use vortex_types::{FieldsRef, Shape, TypeRef};

/// How deep a type nests at most.
const MOST_LEVELS: usize = 64;

/// How many types a type has in it at most, itself counted.
const MOST_NODES: usize = 1_000_000;

/// How many bytes the names, ids and metadata of a type have at most.
const MOST_TEXT: usize = 67_108_864;

/// How many more types, and bytes of text, there is room for.
#[derive(Clone, Copy)]
pub(crate) struct Room {
    nodes: usize,
    text: usize,
}

impl Room {
    /// What a text of so many bytes leaves.
    fn after_text(self, size: usize) -> Option<Room>
        ensures { Leaves 0 0 0 size self result }
    {
        if self.text < size {
            return None;
        }
        Some(Room {
            nodes: self.nodes,
            text: self.text - size,
        })
    }
}

/// Whether the type is within the limits.
pub(crate) fn is_within(of: TypeRef<'_>) -> bool
    ensures { result ≡ is_within (ref_term of.entry) }
{
    let room = Room {
        nodes: MOST_NODES,
        text: MOST_TEXT,
    };
    room_after(of, MOST_LEVELS, room).is_some()
}

/// What the type leaves, where it nests no deeper than `depth`.
#[cycle(room)]
fn room_after(of: TypeRef<'_>, depth: usize, room: Room) -> Option<Room>
    ensures { TypeLeaves depth (ref_term of.entry) room result }
{
    if depth == 0 || room.nodes == 0 {
        return None;
    }
    let inside = Room {
        nodes: room.nodes - 1,
        text: room.text,
    };
    match of.shape() {
        Shape::Struct(fields, _) => room_after_fields(fields, depth - 1, inside),
        Shape::List(element, _) => room_after(element, depth - 1, inside),
        Shape::FixedSizeList(element, _, _) => room_after(element, depth - 1, inside),
        Shape::Extension(id, storage, metadata) => {
            let size = match metadata {
                Some(metadata) => metadata.len(),
                None => 0,
            };
            let after_id = inside.after_text(id.len())?;
            let after_metadata = after_id.after_text(size)?;
            room_after(storage, depth - 1, after_metadata)
        }
        Shape::Null
        | Shape::Bool(_)
        | Shape::Primitive(_, _)
        | Shape::Decimal(_, _)
        | Shape::Utf8(_)
        | Shape::Binary(_) => Some(inside),
    }
}

/// What the fields leave, where none nests deeper than `depth`.
#[cycle(room)]
fn room_after_fields(fields: FieldsRef<'_>, depth: usize, room: Room) -> Option<Room>
    ensures { FieldsLeave depth (fields_term fields.entry) room result }
{
    let mut left = room;
    for i in 0..fields.len() {
        let after_name = left.after_text(field_name(fields, i).len())?;
        left = room_after(field_type(fields, i), depth, after_name)?;
    }
    Some(left)
}

/// The name of field `i`.
#[tactic(auto, using(crate::proofs::Limits::no_name))]
pub(crate) fn field_name<'a>(fields: FieldsRef<'a>, i: usize) -> &'a str
    requires { i < field_count (fields_term fields) }
    ensures { slice_get (names_of (fields_term fields.entry)) i ≡ Some result.now }
{
    match fields.name(i) {
        Some(name) => name,
        None => unreachable!(),
    }
}

/// The type of field `i`.
#[tactic(auto, using(crate::proofs::Limits::no_type))]
pub(crate) fn field_type<'a>(fields: FieldsRef<'a>, i: usize) -> TypeRef<'a>
    requires { i < field_count (fields_term fields) }
    ensures { field_at (fields_term fields.entry) i ≡ Some (ref_term result) }
{
    match fields.part(i) {
        Some(part) => part,
        None => unreachable!(),
    }
}
