//! Laws of signature markers. Each function is empty; its contract is the law.
ghost use Rattle.std.specs.Prelude.{◌≡◌, ℕ, List};
ghost use Rattle.gixobj_parse.specs.Markers.{BeginsWithMarker, IsMarkerPlace};
ghost use Rattle.gixobj_parse.specs.declared.signature.Format.{Format};

/// Bytes begin with a marker of at most one format.
pub fn signature_format_is_unique()
    ensures { (bytes : List ℕ) (format format' : Format) → BeginsWithMarker format bytes
        → BeginsWithMarker format' bytes → format ≡ format' }
{}

/// Bytes have at most one marker position, with one format.
pub fn marker_position_is_unique()
    ensures { (bytes : List ℕ) (position position' : ℕ) (format format' : Format)
        → IsMarkerPlace bytes position format → IsMarkerPlace bytes position' format' → (position ≡ position')
        × (format ≡ format') }
{}
