//! Laws of encoded header fields and of writers. The contract of each function is the law, and its body is
//! empty.
ghost use Rattle.std.specs.Prelude.{◌≡◌, ℕ, List};
ghost use Rattle.gixobj_encode.specs.FieldWriting.{encode_header};
ghost use Rattle.gixobj_hash.specs.HeaderFormat.{Header, DecodesToHeader};
ghost use Rattle.gixobj_streams.specs.Streams.{SinkView};
ghost use Rattle.gixobj_streams.specs.Writing.{FailsAsSink, RejectsNothing, IsWritingError};
ghost use Rattle.gixobj_streams.specs.declared.encode.Error.{Error};

use crate::WriteTo;

/// A decoded header of one line or of several re-encodes identically.
pub fn header_round_trips()
    ensures { (bytes : List ℕ) (header : Header) → DecodesToHeader bytes header
        → encode_header header ≡ bytes }
{}

/// A writer of an object without rejected values fails only as its sink does.
///
/// The sink then had no room for the encoding, and a proper prefix of it has been written.
pub fn write_error_implies_sink_error<T: WriteTo>(object: &T)
    ensures { (before after : SinkView) (error : Error) → RejectsNothing (T.rejects object.now)
        → IsWritingError (T.rejects object.now) before after (T.encoding object.now) error
        → FailsAsSink before after (T.encoding object.now) error }
{}
