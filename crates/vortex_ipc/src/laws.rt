//! Laws of what bytes come to. The functions do nothing when the program runs.

ghost use Rattle.std.specs.Prelude.{◌≡◌, ◌<◌, List, [], ℕ, Option, Result, ◌++◌, length};
ghost use Rattle.vortex_stream.specs.declared.kind.MessageKind.{MessageKind};
ghost use Rattle.vortex_ipc.specs.Message.{Message};
ghost use Rattle.vortex_ipc.specs.Decoding.{Outcome, Decodes, more};
ghost use Rattle.vortex_stream.specs.declared.error.IpcError.{IpcError};
ghost use Rattle.vortex_ipc.specs.declared.message.PollRead.{PollRead};
ghost use Rattle.vortex_ipc.specs.Decoder.{fresh};
ghost use Rattle.vortex_ipc.specs.Runs.{Event, IsFinal, Runs, pushed_bytes, read_messages};
ghost use Rattle.vortex_ipc.specs.Cutting.{behind, IsLast, IsSettled, DecodesAll};

/// Bytes come to one outcome at most.
pub fn one_outcome()
    ensures { (held : List (List ℕ)) (wanted : Option MessageKind) (bytes : List ℕ) (a b : Outcome)
        → Decodes held wanted bytes a → Decodes held wanted bytes b → a ≡ b }
{}

/// No bytes come to none.
pub fn some_outcome()
    ensures { (held : List (List ℕ)) (wanted : Option MessageKind) (bytes : List ℕ)
        → ((a : Outcome) → Decodes held wanted bytes a → ⊥) → ⊥ }
{}

/// The messages of a stream do not depend on how it was cut.
///
/// A message or a refusal at which some bytes come is the same when more bytes follow. A part that is
/// cut stays cut while bytes of it are missing. The messages of bytes, with what comes behind them,
/// are one thing. So decoders of the same registry to which the same bytes are pushed, in any pieces
/// and with calls at any time between, read the same messages and answer the same in the end.
pub fn any_cutting()
    ensures settled { (held : List (List ℕ)) (wanted : Option MessageKind) (bytes others : List ℕ) (a : Outcome)
        → IsSettled a → Decodes held wanted bytes a → Decodes held wanted (bytes ++ others) (behind a others) }
    ensures grows { (held : List (List ℕ)) (wanted : Option MessageKind) (bytes there others : List ℕ) (size : ℕ)
        → Decodes held wanted bytes (more size there) → length (there ++ others) < size
        → Decodes held wanted (bytes ++ others) (more size (there ++ others)) }
    ensures messages { (held : List (List ℕ)) (bytes : List ℕ) (ms ns : List Message)
        (a b : Outcome)
        → IsLast a → IsLast b → DecodesAll held bytes ms a → DecodesAll held bytes ns b
        → (ms ≡ ns) × (a ≡ b) }
    ensures pieces { (held : List (List ℕ)) (events others : List Event)
        (a b : Result PollRead IpcError)
        → pushed_bytes events ≡ pushed_bytes others → IsFinal a → IsFinal b
        → Runs (fresh held) [] events a → Runs (fresh held) [] others b
        → (read_messages events ≡ read_messages others) × (a ≡ b) }
{}
