//! Types written as flat buffers.

ghost use Rattle.std.specs.Prelude.{◌≡◌, ◌∷◌, [], ℕ, List, Some, IfOk, IsOkUnless, IsSome};
ghost use Rattle.std.specs.Option.{option_copied};
ghost use Rattle.vortex_flat.specs.Finish.{IsTable};
ghost use Rattle.vortex_flat.specs.Item.{slots_from, tree_of, trees_from};
ghost use Rattle.vortex_flat.specs.Layout.{layout_of};
ghost use Rattle.vortex_flat.specs.Tree.{one, four, table, no_slots, number_slot, signed_slot};
ghost use Rattle.vortex_flat.specs.Tree.{target_slot, text};
ghost use Rattle.vortex_terms.specs.Term.{Term};
ghost use Rattle.vortex_terms.specs.TermCode.{kind_number};
ghost use Rattle.vortex_terms.specs.Types.{Bounded};
ghost use Rattle.vortex_names.specs.Nullable.{is_nullable};
ghost use Rattle.vortex_number.specs.WholeKind.{whole_kind};
ghost use Rattle.vortex_schema.specs.TypeAt.{IsTypeIn};
ghost use Rattle.vortex_schema.specs.TypeTree.{flag_slot, metadata_slot, name_trees};
ghost use Rattle.vortex_schema.specs.TypeTree.{tree_of_type, type_trees};
ghost use Rattle.vortex_types.specs.DTypes.{term_of};
ghost use Rattle.vortex_types.specs.TypeRefs.{fields_term, ref_term};
ghost use Rattle.vortex_types.specs.Writing.{Writes};
ghost use Rattle.vortex_types.specs.inner.Slots.{body_slots as slots_of_type};
ghost use Rattle.vortex_types.specs.inner.Slots.{struct_slots as slots_of_struct};

use crate::dtype::DType;
use crate::room::{field_name, field_type, is_within};
use crate::shape::{FieldsRef, Shape};
use crate::type_ref::TypeRef;
use std::alloc::Global;
use vortex_buffer::ByteBuffer;
use vortex_flat::{FlatError, Item, Items, Slot, Slots};
use vortex_names::{DTypeError, DecimalDType, Nullability};
use vortex_number::PType;

/// A type within the limits has bytes, which stand for it and for no other type.
///
/// This does nothing when the program runs.
#[tactic(auto, using(crate::proofs::Written::written_again))]
pub fn written_types_are_read()
    ensures { (t : Term) → Bounded t → (b : List ℕ) × (layout_of (tree_of_type t) ≡ Some b)
        × IsTypeIn b t × ((u : Term) → IsTypeIn b u → u ≡ t) }
{}

impl DType {
    /// The bytes of a flat buffer that stands for the type.
    #[tactic(auto, using(crate::proofs::Written::not_bounded, crate::proofs::Written::is_bounded))]
    pub fn write_flatbuffer_bytes(&self, alloc: Global) -> Result<ByteBuffer, DTypeError>
        ensures written { Writes result (term_of self.now) }
        ensures read { IfOk result (λ b. IsTypeIn b.bytes (term_of self.now)) }
    {
        self.law();
        let of = self.type_ref();
        if !is_within(of) {
            return Err(DTypeError::TooLarge);
        }
        let bytes = bounded_bytes(alloc, of)?;
        match ByteBuffer::from_vec(alloc, bytes) {
            Ok(buffer) => Ok(buffer),
            Err(_) => Err(DTypeError::OutOfMemory),
        }
    }
}

/// The bytes of a type within the limits.
fn bounded_bytes(alloc: Global, of: TypeRef<'_>) -> Result<Vec<u8>, DTypeError>
    requires { Bounded (ref_term of) }
    ensures laid { IfOk result (λ v. layout_of (tree_of_type (ref_term of.entry)) ≡ Some v.items) }
    ensures memory { IsOkUnless result DTypeError.OutOfMemory }
{
    let item = type_item(alloc, of)?;
    laid_out(alloc, &item)
}

/// The bytes of an item that has a layout.
fn laid_out(alloc: Global, item: &Item) -> Result<Vec<u8>, DTypeError>
    requires table { IsTable (tree_of item.now) }
    requires layout { IsSome (layout_of (tree_of item.now)) }
    ensures laid { IfOk result (λ v. layout_of (tree_of item.now) ≡ Some v.items) }
    ensures memory { IsOkUnless result DTypeError.OutOfMemory }
{
    match Items::finish(alloc, item) {
        Ok(bytes) => Ok(bytes),
        Err(FlatError::OutOfMemory) => Err(DTypeError::OutOfMemory),
        Err(FlatError::TooLong | FlatError::Outside) => unreachable!(),
    }
}

/// The slot of a flag.
fn flag(nullability: Nullability) -> Slot
    ensures { slots_from (Some result ∷ []) ≡ flag_slot (is_nullable nullability) }
{
    match nullability {
        Nullability::NonNullable => Slot::U8(0),
        Nullability::Nullable => Slot::U8(1),
    }
}

/// A DType of a kind, whose table has these slots.
fn dtype_item(alloc: Global, kind: u8, body: Vec<Option<Slot>>) -> Result<Item, DTypeError>
    ensures tree { IfOk result (λ item. tree_of item ≡
        table (number_slot one kind (target_slot (table (slots_from body.items)) no_slots))) }
    ensures memory { IsOkUnless result DTypeError.OutOfMemory }
{
    let body = Item::Table(Slots::new(body));
    let slots = vec![in alloc; Some(Slot::U8(kind)), Some(Slot::Item(body))]?;
    Ok(Item::Table(Slots::new(slots)))
}

/// What is laid out for a type.
#[cycle(item)]
fn type_item(alloc: Global, of: TypeRef<'_>) -> Result<Item, DTypeError>
    ensures tree { IfOk result (λ item. tree_of item ≡ tree_of_type (ref_term of.entry)) }
    ensures memory { IsOkUnless result DTypeError.OutOfMemory }
{
    let body = body_slots(alloc, of)?;
    dtype_item(alloc, of.kind(), body)
}

/// The slots of the table of a type's kind.
#[cycle(item)]
#[tactic(auto, using(crate::proofs::Written::ptype_kind))]
fn body_slots(alloc: Global, of: TypeRef<'_>) -> Result<Vec<Option<Slot>>, DTypeError>
    ensures slots { IfOk result (λ v. slots_from v.items ≡ slots_of_type (ref_term of.entry)) }
    ensures memory { IsOkUnless result DTypeError.OutOfMemory }
{
    match of.shape() {
        Shape::Null => Ok(Vec::new(alloc)),
        Shape::Bool(n) | Shape::Utf8(n) | Shape::Binary(n) => flag_slots(alloc, n),
        Shape::Primitive(ptype, n) => primitive_slots(alloc, ptype, n),
        Shape::Decimal(decimal, n) => decimal_slots(alloc, decimal, n),
        Shape::Struct(fields, n) => struct_slots(alloc, fields, n),
        Shape::List(element, n) => {
            let element = type_item(alloc, element)?;
            list_slots(alloc, element, n)
        }
        Shape::Extension(id, storage, metadata) => {
            let storage = type_item(alloc, storage)?;
            extension_slots(alloc, id, storage, metadata)
        }
        Shape::FixedSizeList(element, size, n) => {
            let element = type_item(alloc, element)?;
            fixed_slots(alloc, element, size, n)
        }
    }
}

/// The slots of truth values, texts and bytes.
fn flag_slots(alloc: Global, nullability: Nullability) -> Result<Vec<Option<Slot>>, DTypeError>
    ensures slots { IfOk result (λ v. slots_from v.items ≡ flag_slot (is_nullable nullability)) }
    ensures memory { IsOkUnless result DTypeError.OutOfMemory }
{
    Ok(vec![in alloc; Some(flag(nullability))]?)
}

/// The slots of whole numbers.
#[tactic(auto, using(crate::proofs::Written::ptype_kind))]
fn primitive_slots(
    alloc: Global,
    ptype: PType,
    nullability: Nullability,
) -> Result<Vec<Option<Slot>>, DTypeError>
    ensures slots { IfOk result (λ v. slots_from v.items ≡
        number_slot one (kind_number (whole_kind ptype)) (flag_slot (is_nullable nullability))) }
    ensures memory { IsOkUnless result DTypeError.OutOfMemory }
{
    Ok(vec![in alloc; Some(Slot::U8(ptype.number())), Some(flag(nullability))]?)
}

/// The slots of decimals.
fn decimal_slots(
    alloc: Global,
    decimal: DecimalDType,
    nullability: Nullability,
) -> Result<Vec<Option<Slot>>, DTypeError>
    ensures slots { IfOk result (λ v. slots_from v.items ≡
        number_slot one decimal.precision
        (signed_slot decimal.scale (flag_slot (is_nullable nullability)))) }
    ensures memory { IsOkUnless result DTypeError.OutOfMemory }
{
    let precision = Some(Slot::U8(decimal.precision()));
    let scale = Some(Slot::I8(decimal.scale()));
    Ok(vec![in alloc; precision, scale, Some(flag(nullability))]?)
}

/// The slots of lists of any length.
fn list_slots(
    alloc: Global,
    element: Item,
    nullability: Nullability,
) -> Result<Vec<Option<Slot>>, DTypeError>
    ensures slots { IfOk result (λ v. slots_from v.items ≡
        target_slot (tree_of element) (flag_slot (is_nullable nullability))) }
    ensures memory { IsOkUnless result DTypeError.OutOfMemory }
{
    Ok(vec![in alloc; Some(Slot::Item(element)), Some(flag(nullability))]?)
}

/// The slots of lists of one length.
fn fixed_slots(
    alloc: Global,
    element: Item,
    size: u32,
    nullability: Nullability,
) -> Result<Vec<Option<Slot>>, DTypeError>
    ensures slots { IfOk result (λ v. slots_from v.items ≡ target_slot (tree_of element)
        (number_slot four size (flag_slot (is_nullable nullability)))) }
    ensures memory { IsOkUnless result DTypeError.OutOfMemory }
{
    let element = Some(Slot::Item(element));
    Ok(vec![in alloc; element, Some(Slot::U32(size)), Some(flag(nullability))]?)
}

/// The slots of an extension.
fn extension_slots(
    alloc: Global,
    id: &str,
    storage: Item,
    metadata: Option<&[u8]>,
) -> Result<Vec<Option<Slot>>, DTypeError>
    ensures slots { IfOk result (λ v. slots_from v.items ≡ target_slot (text id.now)
        (target_slot (tree_of storage) (metadata_slot (option_copied metadata.entry)))) }
    ensures memory { IsOkUnless result DTypeError.OutOfMemory }
{
    let id = Some(Slot::Item(Item::Text(String::from_str(alloc, id)?)));
    let storage = Some(Slot::Item(storage));
    let metadata = match metadata {
        Some(metadata) => Some(Slot::Item(Item::Bytes(Vec::from_slice(alloc, metadata)?))),
        None => None,
    };
    Ok(vec![in alloc; id, storage, metadata]?)
}

/// The slots of a struct.
#[cycle(item)]
fn struct_slots(
    alloc: Global,
    fields: FieldsRef<'_>,
    nullability: Nullability,
) -> Result<Vec<Option<Slot>>, DTypeError>
    ensures slots { IfOk result (λ v. slots_from v.items ≡
        slots_of_struct (fields_term fields.entry) (is_nullable nullability)) }
    ensures memory { IsOkUnless result DTypeError.OutOfMemory }
{
    let names = name_items(alloc, fields)?;
    let dtypes = type_items(alloc, fields)?;
    let names = Some(Slot::Item(Item::Offsets(Items::new(names))));
    let dtypes = Some(Slot::Item(Item::Offsets(Items::new(dtypes))));
    Ok(vec![in alloc; names, dtypes, Some(flag(nullability))]?)
}

/// The names of fields.
fn name_items(alloc: Global, fields: FieldsRef<'_>) -> Result<Vec<Item>, DTypeError>
    ensures names { IfOk result (λ v. trees_from v.items ≡ name_trees (fields_term fields.entry)) }
    ensures memory { IsOkUnless result DTypeError.OutOfMemory }
{
    let mut names = Vec::new(alloc);
    for i in 0..fields.len() {
        let name = String::from_str(alloc, field_name(fields, i))?;
        names.push(Item::Text(name))?;
    }
    Ok(names)
}

/// The types of fields.
#[cycle(item)]
fn type_items(alloc: Global, fields: FieldsRef<'_>) -> Result<Vec<Item>, DTypeError>
    ensures types { IfOk result (λ v. trees_from v.items ≡ type_trees (fields_term fields.entry)) }
    ensures memory { IsOkUnless result DTypeError.OutOfMemory }
{
    let mut dtypes = Vec::new(alloc);
    for i in 0..fields.len() {
        dtypes.push(type_item(alloc, field_type(fields, i))?)?;
    }
    Ok(dtypes)
}
