//! Values without repeats, each found by a map.

ghost use Rattle.std.specs.Prelude.{◌≡◌, ℕ, ◌+◌, ◌*◌, ◌^◌, ◌<◌, ◌≤◌, ◌↔◌, [], ◌∷◌, ◌++◌, length};
ghost use Rattle.std.specs.Prelude.{get_or, IfErr, IfOk, OnOk, OnErr, Err, Some, None, IsTrue};
ghost use Rattle.std.specs.Prelude.{IfSome, IfNone, OnSome, vec_len, vec_capacity};
ghost use Rattle.std.specs.Prelude.{Option, cond, if◌then◌else◌};
ghost use Rattle.std.specs.BTreeMap.{get};
ghost use Rattle.std.specs.List.{IsDistinct};
ghost use Rattle.std.specs.Option.{option_eq, unwrap_or, is_some};
ghost use Rattle.vortex_number.specs.PType.{byte_width_of};
ghost use Rattle.vortex_codes.specs.Places.{place_of, with_key, code_in};
ghost use Rattle.vortex_codes.specs.Refusals.{IsOfSize};
ghost use Rattle.vortex_dict.specs.inner.Numbers.{place_in, place_found, HasPlaces};

use crate::native_value::NativeValue;
use std::alloc::{AllocError, Global};
use std::collections::hash_map::Entry;
use std::collections::{BTreeMap, HashMap};
use std::hash::BuildHasher;
use std::marker::Model;
use vortex_codes::DictError;

/// Values without repeats, each with its place as its code.
///
/// A value is found by its hash. Once far more values than are to be expected have hashes of one
/// class, as those that were chosen to collide do, values are found by their order instead.
#[derive(Drop)]
pub(crate) struct Numbers<T: NativeValue> {
    values: Vec<Option<T>>,
    codes: HashMap<T, u32>,
    ordered: Option<BTreeMap<T, u32>>,
    null: Option<u32>,
    /// How many values have hashes of each class.
    classes: Vec<u32>,
}

impl<T: NativeValue> Model for Numbers<T> {
    ghost use Rattle.std.specs.Prelude.{List, Option};

    ghost Value = { List (Option T) };

    ghost use Rattle.vortex_number.specs.PType.{byte_width_of};
    ghost use Rattle.vortex_dict.specs.inner.Numbers.{HasPlaces};

    ghost view = { λ n. n.values.items };

    ghost invariant = { λ n. HasPlaces T.eq T.cmp
        (byte_width_of T.PTYPE) n.values.items n.codes n.ordered n.null };
}

/// The place of a new value, and whether the class of its hash is crowded.
#[derive(Drop)]
struct Added {
    place: u32,
    crowded: bool,
}

/// How many classes of hashes there are.
const CLASSES: usize = 4096;

/// So many values in one class are no sign of values that were chosen to collide.
const FEW: usize = 64;

/// The class of a value's hash. It is the hash that the map finds the value by.
#[inline(always)]
fn class_of<T: NativeValue>(codes: &HashMap<T, u32>, value: T) -> usize
    ensures { result < 4096 }
{
    let hash = codes.hasher().hash_one(value);
    ((hash ^ (hash >> 32)) & (CLASSES as u64 - 1)) as usize
}

/// Makes the classes where there are none, and tells whether there are some.
#[inline(always)]
fn are_counted(classes: &mut Vec<u32>) -> bool
    ensures { IsTrue result → length classes.new.items ≡ 4096 }
{
    if classes.len() == CLASSES {
        return true;
    }
    let alloc = *classes.allocator();
    match vec![in alloc; 0u32; CLASSES] {
        Ok(made) => {
            *classes = made;
            true
        }
        Err(_) => false,
    }
}

/// Counts a new value in its class, and tells whether that is crowded. The first few values are not
/// counted, nor any for which there is no memory.
#[inline(always)]
fn is_crowded(classes: &mut Vec<u32>, class: usize, count: usize) -> bool
    requires { class < 4096 }
{
    if count < FEW {
        return false;
    }
    if !are_counted(classes) {
        return false;
    }
    let size = classes[class].wrapping_add(1);
    classes[class] = size;
    size as usize > FEW + count / (CLASSES / 2)
}

/// The same of a value or null, which has no class.
fn is_in_crowd<T: NativeValue>(
    classes: &mut Vec<u32>,
    codes: &HashMap<T, u32>,
    value: Option<T>,
    count: usize,
) -> bool {
    let Some(value) = value else {
        return false;
    };
    is_crowded(classes, class_of(codes, value), count)
}

/// The place that the maps have for a value.
#[inline(always)]
fn find<T: NativeValue>(
    codes: &HashMap<T, u32>,
    ordered: &Option<BTreeMap<T, u32>>,
    value: T,
) -> Option<u32>
    ensures { result ≡ place_in T.eq T.cmp codes.now ordered.now value }
{
    match ordered {
        None => codes.get(&value).copied(),
        Some(ordered) => ordered.get(&value).copied(),
    }
}

/// Gives a value its place.
fn insert<T: NativeValue>(
    codes: &mut HashMap<T, u32>,
    ordered: &mut Option<BTreeMap<T, u32>>,
    null: &mut Option<u32>,
    value: Option<T>,
    place: u32,
) -> Result<(), DictError>
    ensures inserted { OnOk result ((v : Option T)
        → place_found T.eq T.cmp codes.new ordered.new null.new v
        ≡ cond (option_eq T.eq value v) (Some place)
        (place_found T.eq T.cmp codes.old ordered.old null.old v)) }
    ensures stays { OnErr result ((v : Option T)
        → place_found T.eq T.cmp codes.new ordered.new null.new v
        ≡ place_found T.eq T.cmp codes.old ordered.old null.old v) }
    ensures memory { OnErr result (result ≡ Err DictError.OutOfMemory) }
{
    let Some(value) = value else {
        *null = Some(place);
        return Ok(());
    };
    if let Some(ordered) = ordered {
        let _old = ordered.insert(value, place)?;
        return Ok(());
    }
    let _old = codes.insert(value, place)?;
    Ok(())
}

/// Gives a value its place in a map by order.
fn insert_in_order<T: NativeValue>(
    ordered: &mut BTreeMap<T, u32>,
    value: Option<T>,
    place: u32,
) -> Result<(), AllocError>
    ensures { OnOk result ((v : T) → get T.cmp ordered.new v
        ≡ cond (option_eq T.eq value (Some v)) (Some place) (get T.cmp ordered.old v)) }
{
    let Some(value) = value else {
        return Ok(());
    };
    let _old = ordered.insert(value, place)?;
    Ok(())
}

/// The places of all values, by their order.
fn order_of<T: NativeValue>(
    alloc: Global,
    values: &[Option<T>],
) -> Result<BTreeMap<T, u32>, AllocError>
    requires apart { (c d : ℕ) → c < length values.now → d < length values.now
        → get_or values.now c None ≡ get_or values.now d None → c ≡ d }
    requires few { length values.now < 2 ^ 32 }
    ensures { IfOk result (λ ordered. (v : T) → get T.cmp ordered v
        ≡ place_of (option_eq T.eq) (Some v) values.now) }
{
    let mut ordered = BTreeMap::new(alloc);
    for place in 0..values.len() {
        insert_in_order(&mut ordered, values[place], place as u32)?;
    }
    Ok(ordered)
}

/// Whether a value of this width may come behind so many others.
#[inline(always)]
fn has_room(width: usize, count: usize) -> bool
    requires width { width ≤ 8 }
    requires few { count < 2 ^ 32 }
    ensures { IsTrue result ↔ (width * (count + 1) < 2 ^ 32) }
{
    width * (count + 1) <= u32::MAX as usize
}

/// Makes room for a value of this width behind the others, and tells whether there is some.
#[inline(always)]
fn has_place<T: NativeValue>(values: &mut Vec<Option<T>>, width: usize) -> bool
    requires width { width ≤ 8 }
    requires few { length values.old.items < 2 ^ 32 }
    ensures stays { values.new.items ≡ values.old.items }
    ensures room { IsTrue result → vec_len values.new < vec_capacity values.new }
    ensures small { IsTrue result → width * (length values.old.items + 1) < 2 ^ 32 }
    ensures few { IsTrue result → length values.old.items + 1 < 2 ^ 32 }
{
    let count = values.len();
    has_room(width, count) && count < u32::MAX as usize && values.reserve(1).is_ok()
}

/// One look at the map, where values are found by it: the place of a value, which is put behind the
/// others where it is new, may be added, and there is room. Nothing tells that another look is
/// wanted.
#[inline(always)]
fn look<T: NativeValue>(
    codes: &mut HashMap<T, u32>,
    ordered: &Option<BTreeMap<T, u32>>,
    values: &mut Vec<Option<T>>,
    classes: &mut Vec<u32>,
    value: T,
    width: usize,
    may_add: bool,
) -> Option<Added>
    requires width { width ≤ 8 }
    requires few { length values.old.items < 2 ^ 32 }
    ensures by_hash { OnSome result (ordered.now ≡ None) }
    ensures place { IfSome result (λ a. a.place ≡ unwrap_or
        (place_in T.eq T.cmp codes.old None value) (length values.old.items)) }
    ensures inserted { OnSome result ((v : T) → place_in T.eq T.cmp codes.new None v
        ≡ cond (T.eq value v) (Some (unwrap_or
        (place_in T.eq T.cmp codes.old None value) (length values.old.items)))
        (place_in T.eq T.cmp codes.old None v)) }
    ensures stays { IfNone result ((v : T) → place_in T.eq T.cmp codes.new None v
        ≡ place_in T.eq T.cmp codes.old None v) }
    ensures same { IfNone result (values.new.items ≡ values.old.items) }
    ensures values { OnSome result (values.new.items
        ≡ cond (is_some (place_in T.eq T.cmp codes.old None value)) values.old.items
        (values.old.items ++ Some value ∷ [])) }
    ensures new { OnSome result (place_in T.eq T.cmp codes.old None value ≡ None
        → IsTrue may_add × (width * (length values.old.items + 1) < 2 ^ 32)
        × (length values.old.items + 1 < 2 ^ 32)) }
{
    if ordered.is_some() {
        return None;
    }
    let class = class_of(codes, value);
    match codes.entry(value) {
        Ok(Entry::Occupied(entry)) => {
            let place = *entry.get();
            Some(Added {
                place,
                crowded: false,
            })
        }
        Ok(Entry::Vacant(entry)) => {
            let count = values.len();
            if !may_add {
                let _value = entry.into_key();
                return None;
            }
            if !has_place(values, width) {
                let _value = entry.into_key();
                return None;
            }
            let place = count as u32;
            let _code = entry.insert(place);
            values.push_reserved(Some(value));
            let crowded = is_crowded(classes, class, count);
            Some(Added { place, crowded })
        }
        Err(_) => None,
    }
}

impl<T: NativeValue> Numbers<T> {
    pub(crate) fn new(alloc: Global) -> Numbers<T>
        ensures { result ≡ [] }
    {
        Numbers {
            values: Vec::new(alloc),
            codes: HashMap::new(alloc),
            ordered: None,
            null: None,
            classes: Vec::new(alloc),
        }
    }

    pub(crate) fn len(&self) -> usize
        ensures count { result ≡ length self.now }
        ensures small { result < 2 ^ 32 }
    {
        let _ = &self.null;
        self.values.len()
    }

    /// No value stands twice, and they have fewer than 2^32 bytes.
    pub(crate) fn law(&self)
        ensures distinct { IsDistinct (option_eq T.eq) self.now }
        ensures small { byte_width_of T.PTYPE * length self.now < 2 ^ 32 }
    {
        let _ = &self.null;
    }

    pub(crate) fn as_slice(&self) -> &[Option<T>]
        ensures { result.now ≡ self.now }
    {
        self.values.as_slice()
    }

    /// The place of a value.
    #[inline(always)]
    fn place(&self, value: Option<T>) -> Option<u32>
        ensures { result ≡ place_of (option_eq T.eq) value self.now }
    {
        match value {
            None => self.null,
            Some(value) => find(&self.codes, &self.ordered, value),
        }
    }

    /// Adds a value that is not there. After a refusal nothing has changed.
    fn add(&mut self, value: Option<T>) -> Result<Added, DictError>
        requires { place_of (option_eq T.eq) value self.old ≡ None }
        ensures added { OnOk result (self.new ≡ self.old ++ value ∷ []) }
        ensures place { IfOk result (λ a. a.place ≡ length self.old) }
        ensures stays { OnErr result (self.new ≡ self.old) }
        ensures too_large { (result ≡ Err DictError.TooLarge)
            ↔ (2 ^ 32 ≤ byte_width_of T.PTYPE * (length self.old + 1)) }
        ensures errors { IfErr result (λ e. IsOfSize e) }
    {
        let count = self.values.len();
        if !has_room(T::PTYPE.byte_width(), count) {
            return Err(DictError::TooLarge);
        }
        if count >= u32::MAX as usize {
            return Err(DictError::OutOfMemory);
        }
        self.values.reserve(1)?;
        let place = count as u32;
        insert(
            &mut self.codes,
            &mut self.ordered,
            &mut self.null,
            value,
            place,
        )?;
        self.values.push_reserved(value);
        let crowded = is_in_crowd(&mut self.classes, &self.codes, value, count);
        Ok(Added { place, crowded })
    }

    /// Finds values by their order from here on where a class is crowded, and memory allows.
    #[inline(always)]
    fn put_in_order(&mut self, crowded: bool)
        ensures { self.new ≡ self.old }
    {
        if !crowded || self.ordered.is_some() {
            return;
        }
        let alloc = *self.values.allocator();
        if let Ok(ordered) = order_of(alloc, self.values.as_slice()) {
            self.ordered = Some(ordered);
        }
    }

    /// The same as `find_or_add`, by a look and then another that adds.
    #[inline(never)]
    fn find_then_add(&mut self, value: Option<T>, may_add: bool) -> Result<Option<u32>, DictError>
        ensures values { OnOk result (self.new ≡ (if may_add
            then with_key (option_eq T.eq) self.old value else self.old)) }
        ensures code { IfOk result (λ o. o ≡ (if may_add
            then Some (code_in (option_eq T.eq) self.old value)
            else place_of (option_eq T.eq) value self.old)) }
        ensures stays { OnErr result (self.new ≡ self.old) }
        ensures new { OnErr result (IsTrue may_add
            × (place_of (option_eq T.eq) value self.old ≡ None)) }
        ensures too_large { (result ≡ Err DictError.TooLarge)
            ↔ (IsTrue may_add × (place_of (option_eq T.eq) value self.old ≡ None)
            × (2 ^ 32 ≤ byte_width_of T.PTYPE * (length self.old + 1))) }
        ensures errors { IfErr result (λ e. IsOfSize e) }
    {
        let found = self.place(value);
        if found.is_some() || !may_add {
            return Ok(found);
        }
        let added = self.add(value)?;
        self.put_in_order(added.crowded);
        Ok(Some(added.place))
    }

    /// The same of a value that is no null. Where values are found by their hash, and there is room
    /// for one more, this takes one look.
    #[inline(always)]
    fn find_or_put(&mut self, number: T, may_add: bool) -> Result<Option<u32>, DictError>
        ensures values { OnOk result (self.new ≡ (if may_add
            then with_key (option_eq T.eq) self.old (Some number) else self.old)) }
        ensures code { IfOk result (λ o. o ≡ (if may_add
            then Some (code_in (option_eq T.eq) self.old (Some number))
            else place_of (option_eq T.eq) (Some number) self.old)) }
        ensures stays { OnErr result (self.new ≡ self.old) }
        ensures new { OnErr result (IsTrue may_add
            × (place_of (option_eq T.eq) (Some number) self.old ≡ None)) }
        ensures too_large { (result ≡ Err DictError.TooLarge)
            ↔ (IsTrue may_add × (place_of (option_eq T.eq) (Some number) self.old ≡ None)
            × (2 ^ 32 ≤ byte_width_of T.PTYPE * (length self.old + 1))) }
        ensures errors { IfErr result (λ e. IsOfSize e) }
    {
        let width = T::PTYPE.byte_width();
        let Some(added) = look(
            &mut self.codes,
            &self.ordered,
            &mut self.values,
            &mut self.classes,
            number,
            width,
            may_add,
        ) else {
            return self.find_then_add(Some(number), may_add);
        };
        self.put_in_order(added.crowded);
        Ok(Some(added.place))
    }

    /// The place of a value, which is added where it is new and may be added, or nothing where it
    /// is new and may not.
    #[inline(always)]
    pub(crate) fn find_or_add(
        &mut self,
        value: Option<T>,
        may_add: bool,
    ) -> Result<Option<u32>, DictError>
        ensures values { OnOk result (self.new ≡ (if may_add
            then with_key (option_eq T.eq) self.old value else self.old)) }
        ensures code { IfOk result (λ o. o ≡ (if may_add
            then Some (code_in (option_eq T.eq) self.old value)
            else place_of (option_eq T.eq) value self.old)) }
        ensures stays { OnErr result (self.new ≡ self.old) }
        ensures new { OnErr result (IsTrue may_add
            × (place_of (option_eq T.eq) value self.old ≡ None)) }
        ensures too_large { (result ≡ Err DictError.TooLarge)
            ↔ (IsTrue may_add × (place_of (option_eq T.eq) value self.old ≡ None)
            × (2 ^ 32 ≤ byte_width_of T.PTYPE * (length self.old + 1))) }
        ensures errors { IfErr result (λ e. IsOfSize e) }
    {
        match value {
            Some(number) => self.find_or_put(number, may_add),
            None => self.find_then_add(None, may_add),
        }
    }
}
