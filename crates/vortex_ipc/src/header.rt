//! Headers, read.

ghost use Rattle.std.specs.Prelude.{◌≡◌, IfOk, IfErr, IsSome, Some, map};
ghost use Rattle.std.specs.Option.{option_map};
ghost use Rattle.vortex_flat.specs.Answers.{Answers};
ghost use Rattle.vortex_stream.specs.Header.{content_at, header_of, message_table_of, names_in};
ghost use Rattle.vortex_encodings.specs.Encodings.{names_of};
ghost use Rattle.vortex_ipc.specs.inner.Heads.{array_head_at, content_head, head_of, held_names, message_view, names_told, names_vector_of, texts_of};

use std::alloc::{AllocError, Global};
use vortex_array::ArrayContext;
use vortex_encodings::ArrayRegistry;
use vortex_flat::{FlatError, Table, Vector, root};
use vortex_stream::schema::{
    ARRAY, ARRAY_NAMES, ARRAY_ROWS, BUFFER, BUFFER_ALIGNMENT, DTYPE, MESSAGE_BODY_SIZE,
    MESSAGE_INNER, MESSAGE_KIND, MESSAGE_VERSION, MOST_NAMES, VERSION,
};
use vortex_stream::{IpcError, MessageKind};

/// What table `Message` of a header says.
#[derive(Drop)]
pub(crate) struct FoundMessage<'a> {
    kind: u8,
    inner: Table<'a>,
    body_size: u64,
}

/// What a message holds, as far as a decoder looks.
#[derive(Clone, Copy)]
pub(crate) struct ContentHead {
    pub(crate) kind: MessageKind,
    /// The exponent of a buffer's alignment, and 0 for the other kinds.
    pub(crate) exponent: u8,
    /// The row count of an array, and 0 for the other kinds.
    pub(crate) rows: u32,
    /// Whether the encodings that are named are held.
    pub(crate) held: bool,
}

/// What a header says, as far as a decoder looks.
#[derive(Clone, Copy)]
pub(crate) struct Head {
    pub(crate) content: ContentHead,
    pub(crate) body_size: u64,
}

/// What the table of a header says, where its version is the one there is.
#[tactic(auto, unfolding(vortex_stream::specs::Header::message_table_of))]
fn message_table(header: &[u8]) -> Result<FoundMessage<'_>, FlatError>
    ensures { Answers message_view result
        (option_map (λ m. (header.now, m)) (message_table_of header.now)) }
{
    let message = root(header)?;
    let version = message.field_u8(MESSAGE_VERSION)?.unwrap_or(0);
    let kind = message.field_u8(MESSAGE_KIND)?.unwrap_or(0);
    let Some(inner) = message.field_table(MESSAGE_INNER)? else {
        return Err(FlatError::Outside);
    };
    let body_size = message.field_u64(MESSAGE_BODY_SIZE)?.unwrap_or(0);
    if version != VERSION {
        return Err(FlatError::Outside);
    }
    Ok(FoundMessage {
        kind,
        inner,
        body_size,
    })
}

/// Whether the names of encodings are held, where all of them stand there and are not too many.
#[tactic(auto, using(crate::proofs::HeadLemmas::names_refused))]
fn check_names(names: &Vector, registry: ArrayRegistry) -> Result<bool, FlatError>
    requires { names.now.shape.width ≡ 4 }
    ensures { Answers (λ x. x) result
        (held_names (names_of registry) (names_in names.now.buffer names.now.shape)) }
{
    if names.len() > MOST_NAMES {
        return Err(FlatError::Outside);
    }
    let mut held = true;
    for i in 0..names.len() {
        let name = match names.str(i) {
            Ok(name) => name,
            Err(_) => return Err(FlatError::Outside),
        };
        let known = registry.holds(name);
        held = held && known;
    }
    Ok(held)
}

/// What the table of an array tells.
#[tactic(auto, unfolding(crate::specs::inner::Heads::array_head_at))]
fn array_head(inner: &Table, registry: ArrayRegistry) -> Result<ContentHead, FlatError>
    ensures { Answers (λ x. x) result
        (array_head_at (names_of registry) inner.now.buffer inner.now.place) }
{
    let rows = inner.field_u32(ARRAY_ROWS)?.unwrap_or(0);
    let held = check_names(&inner.field_vector_or_empty(ARRAY_NAMES, 4)?, registry)?;
    Ok(ContentHead {
        kind: MessageKind::Array,
        exponent: 0,
        rows,
        held,
    })
}

/// What a message of a kind holds, as the table of the kind tells.
#[tactic(auto, using(crate::proofs::HeadLemmas::array_is, crate::proofs::HeadLemmas::buffer_is, crate::proofs::HeadLemmas::type_is, crate::proofs::HeadLemmas::none_is))]
fn content_of(kind: u8, inner: &Table, registry: ArrayRegistry) -> Result<ContentHead, FlatError>
    ensures { Answers (λ x. x) result (option_map (content_head (names_of registry))
        (content_at inner.now.buffer inner.now.place kind)) }
{
    match kind {
        ARRAY => array_head(inner, registry),
        BUFFER => {
            let exponent = inner.field_u8(BUFFER_ALIGNMENT)?.unwrap_or(0);
            Ok(ContentHead {
                kind: MessageKind::Buffer,
                exponent,
                rows: 0,
                held: true,
            })
        }
        DTYPE => Ok(ContentHead {
            kind: MessageKind::DType,
            exponent: 0,
            rows: 0,
            held: true,
        }),
        _ => Err(FlatError::Outside),
    }
}

/// What header bytes stand for, as far as a decoder of this registry looks.
#[tactic(auto, unfolding(vortex_stream::specs::Header::header_of))]
pub(crate) fn read_header(header: &[u8], registry: ArrayRegistry) -> Result<Head, FlatError>
    ensures { Answers (λ x. x) result
        (option_map (head_of (names_of registry)) (header_of header.now)) }
{
    let message = message_table(header)?;
    let content = content_of(message.kind, &message.inner, registry)?;
    Ok(Head {
        content,
        body_size: message.body_size,
    })
}

/// The vector of names that the table of an array holds.
#[tactic(auto, unfolding(crate::specs::inner::Heads::names_vector_of))]
fn names_vector(header: &[u8]) -> Result<Vector<'_>, FlatError>
    ensures found { Answers (λ x. x) result (names_vector_of header.now) }
    ensures width { IfOk result (λ names. names.shape.width ≡ 4) }
{
    let message = message_table(header)?;
    message.inner.field_vector_or_empty(ARRAY_NAMES, 4)
}

/// The texts of a vector, where all of them stand there.
#[tactic(auto, using(crate::proofs::HeadLemmas::texts_fail, crate::proofs::HeadLemmas::texts_end, crate::proofs::HeadLemmas::texts_none))]
fn texts<'a>(alloc: Global, names: &Vector<'a>) -> Result<Vec<&'a str>, AllocError>
    requires width { names.now.shape.width ≡ 4 }
    requires there { IsSome (texts_of names.now) }
    ensures { IfOk result (λ texts. texts_of names.now ≡ Some (map (λ t. t.now) texts.items)) }
{
    let mut texts = Vec::with_capacity(alloc, names.len())?;
    for i in 0..names.len() {
        let text = match names.str(i) {
            Ok(text) => text,
            Err(_) => unreachable!(),
        };
        texts.push(text)?;
    }
    Ok(texts)
}

/// The names of encodings that the header of an array tells, in their order.
#[tactic(auto, using(crate::proofs::HeadLemmas::texts_there, crate::proofs::HeadLemmas::no_vector, crate::proofs::HeadLemmas::read_told))]
pub(crate) fn read_names(alloc: Global, header: &[u8]) -> Result<ArrayContext, IpcError>
    requires { IsSome (names_told header.now) }
    ensures names { IfOk result (λ names. names_told header.now ≡ Some names) }
    ensures memory { IfErr result (λ e. e ≡ IpcError.OutOfMemory) }
{
    let names = match names_vector(header) {
        Ok(names) => names,
        Err(_) => unreachable!(),
    };
    let texts = texts(alloc, &names)?;
    match ArrayContext::from_ids(alloc, &texts) {
        Ok(names) => Ok(names),
        Err(_) => Err(IpcError::OutOfMemory),
    }
}
