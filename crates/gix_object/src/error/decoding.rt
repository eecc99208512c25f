//! Errors of decoding, encoding and ids.
ghost use Rattle.std.specs.Prelude.{◌≡◌};
ghost use Rattle.gix_object.specs.declared.error.Error.TheVariants as tool;

use super::Error;
use gixobj_encode::{encode, stream_hash};
use gixobj_hash::{decode, hash, kind};
use gixobj_object::LooseDecodeError;
use gixobj_store::data;
use gixobj_tag::name as tag_name;

impl From<kind::Error> for Error {
    ghost from_gives = { λ cause error. error ≡ tool.Kind cause };

    fn from(cause: kind::Error) -> Error {
        Error::Kind(cause)
    }
}

impl From<decode::LooseHeaderDecodeError> for Error {
    ghost from_gives = { λ cause error. error ≡ tool.LooseHeader cause };

    fn from(cause: decode::LooseHeaderDecodeError) -> Error {
        Error::LooseHeader(cause)
    }
}

impl From<decode::LooseContentError> for Error {
    ghost from_gives = { λ cause error. error ≡ tool.LooseContent cause };

    fn from(cause: decode::LooseContentError) -> Error {
        Error::LooseContent(cause)
    }
}

impl From<LooseDecodeError> for Error {
    ghost from_gives = { λ cause error. error ≡ tool.Loose cause };

    fn from(cause: LooseDecodeError) -> Error {
        Error::Loose(cause)
    }
}

impl From<decode::Error> for Error {
    ghost from_gives = { λ cause error. error ≡ tool.Decode cause };

    fn from(cause: decode::Error) -> Error {
        Error::Decode(cause)
    }
}

impl From<hash::verify::Error> for Error {
    ghost from_gives = { λ cause error. error ≡ tool.Id cause };

    fn from(cause: hash::verify::Error) -> Error {
        Error::Id(cause)
    }
}

impl From<data::verify::Error> for Error {
    ghost from_gives = { λ cause error. error ≡ tool.Checksum cause };

    fn from(cause: data::verify::Error) -> Error {
        Error::Checksum(cause)
    }
}

impl From<encode::Error> for Error {
    ghost from_gives = { λ cause error. error ≡ tool.Encode cause };

    fn from(cause: encode::Error) -> Error {
        Error::Encode(cause)
    }
}

impl From<tag_name::Error> for Error {
    ghost from_gives = { λ cause error. error ≡ tool.TagName cause };

    fn from(cause: tag_name::Error) -> Error {
        Error::TagName(cause)
    }
}

impl From<stream_hash::Error> for Error {
    ghost from_gives = { λ cause error. error ≡ tool.Stream cause };

    fn from(cause: stream_hash::Error) -> Error {
        Error::Stream(cause)
    }
}
