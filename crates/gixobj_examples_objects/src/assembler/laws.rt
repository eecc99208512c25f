//! Laws of messages that are assembled. The contract of each function is a law.
ghost use Rattle.std.specs.Prelude.{◌≡◌, ◌≢◌, ℕ, All, List, Some, [], length};
ghost use Rattle.gix_object.specs.BodyLines.{without_last_byte};
ghost use Rattle.gix_object.specs.Bytes.{carriage_return};
ghost use Rattle.gix_object.specs.MessageTrailers.{HasTrailers};
ghost use Rattle.gix_object.specs.Titles.{SplitsTitle};
ghost use Rattle.gix_object.specs.TrailerBlocks.{IsTrailerBlockStart};
ghost use Rattle.gix_object.specs.Trailers.{TrailerView};
ghost use Rattle.gixobj_examples_objects.specs.Assembled.{IsLineTrailer, IsTitleLine, assembled_message};
ghost use Rattle.gixobj_examples_objects.specs.Assembled.{described_body, described_message, trailer_body};

use gix_object::laws::trailer_line_decodes;

/// A message of a title, an empty line and trailers has this title, the lines of the trailers as its body, and
/// these trailers.
///
/// The title is one line, and each trailer is.
pub fn assembled_message_has_parts()
    ensures split { (title : List ℕ) (trailers : List TrailerView) → IsTitleLine title
        → SplitsTitle (assembled_message title trailers) title (trailer_body trailers) }
    ensures trailers { (title : List ℕ) (trailers : List TrailerView) → IsTitleLine title
        → All IsLineTrailer trailers → HasTrailers (assembled_message title trailers) trailers }
{
    trailer_line_decodes();
}

/// A message of a title, a description and trailers has this title, and its body is the description and the trailers.
///
/// If there are trailers, the message has them. Their block follows the description, unless a carriage return ends it.
/// The title is one line, and each trailer is. The description is any bytes.
pub fn described_message_has_parts()
    ensures split { (title description : List ℕ) (trailers : List TrailerView) → IsTitleLine title
        → SplitsTitle (described_message title description trailers) title
        (Some (described_body description trailers)) }
    ensures start { (description : List ℕ) (trailers : List TrailerView)
        → without_last_byte carriage_return description ≡ description → trailers ≢ []
        → All IsLineTrailer trailers
        → IsTrailerBlockStart (described_body description trailers) (length description) }
    ensures trailers { (title description : List ℕ) (trailers : List TrailerView)
        → IsTitleLine title → trailers ≢ [] → All IsLineTrailer trailers
        → HasTrailers (described_message title description trailers) trailers }
{
    trailer_line_decodes();
}
