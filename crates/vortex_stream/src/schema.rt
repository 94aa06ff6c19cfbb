//! The schema of headers: the tables of this project's own, over flat buffers, and the numbers of
//! their fields.

ghost use Rattle.std.specs.Prelude.{◌≡◌, ◌≤◌, ◌<◌, ℕ, List, None};
ghost use Rattle.vortex_flat.specs.Targets.{VectorShape, text_element};
ghost use Rattle.vortex_prelude.specs.Elements.{elements};
ghost use Rattle.vortex_stream.specs.Header.{names_in};

/// The field of table `Message` that holds its version.
pub const MESSAGE_VERSION: u16 = 0;
/// The field of table `Message` that holds the kind of what the message holds.
pub const MESSAGE_KIND: u16 = 1;
/// The field of table `Message` that leads to the table of the kind.
pub const MESSAGE_INNER: u16 = 2;
/// The field of table `Message` that holds the size of the body.
pub const MESSAGE_BODY_SIZE: u16 = 3;

/// The one version of table `Message`.
pub const VERSION: u8 = 0;

/// The kind of a message of an array.
pub const ARRAY: u8 = 1;
/// The kind of a message of a buffer.
pub const BUFFER: u8 = 2;
/// The kind of a message of a type.
pub const DTYPE: u8 = 3;

/// The field of the table of an array that holds how many rows it has.
pub const ARRAY_ROWS: u16 = 0;
/// The field of the table of an array that leads to the names of its encodings.
pub const ARRAY_NAMES: u16 = 1;
/// How many names of encodings there may be.
pub const MOST_NAMES: usize = 65_536;

/// The field of the table of a buffer that holds its alignment exponent.
pub const BUFFER_ALIGNMENT: u16 = 0;

/// Which numbers the schema of headers has. It does nothing when the program runs.
pub fn header_schema()
    ensures message { (MESSAGE_VERSION ≡ 0) × (MESSAGE_KIND ≡ 1) × (MESSAGE_INNER ≡ 2) × (MESSAGE_BODY_SIZE ≡ 3) }
    ensures version { VERSION ≡ 0 }
    ensures kinds { (ARRAY ≡ 1) × (BUFFER ≡ 2) × (DTYPE ≡ 3) }
    ensures array { (ARRAY_ROWS ≡ 0) × (ARRAY_NAMES ≡ 1) × (MOST_NAMES ≡ 65536) }
    ensures buffer { BUFFER_ALIGNMENT ≡ 0 }
{}

/// A header names at most 65,536 encodings. This does nothing when the program runs.
pub fn names_are_few()
    ensures names { (b : List ℕ) (v : VectorShape) → v.count ≤ 65536
        → names_in b v ≡ elements (text_element b v) 0 v.count }
    ensures too_many { (b : List ℕ) (v : VectorShape) → 65536 < v.count → names_in b v ≡ None }
{}
