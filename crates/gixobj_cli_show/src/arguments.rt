//! The arguments of the program: a command, and the kind of hash.
ghost use Rattle.std.specs.Prelude.{◌≡◌, ◌⊎◌, IfErr, IfSome, IfNone, map};
ghost use Rattle.std.specs.String.{string_bytes};
ghost use Rattle.gixobj_cli_show.specs.Arguments.{IsOtherCommand, IsCommandOfHash};
ghost use Rattle.gixobj_cli_show.specs.declared.failure.Failure.TheVariants.{OutOfMemory, Usage};

use crate::failure::Failure;
use gixobj_hash::hash;
use std::env;
use std::io::ErrorKind;
use std::rt::Env;

/// Returns the kind of hash that the arguments request of this command.
///
/// The command alone requests SHA-1, and a second argument `sha256` requests SHA-256. Returns `None` for
/// any other arguments.
pub fn requested_hash(command: &str, arguments: &[String]) -> Option<hash::Kind>
    ensures found { IfSome result (IsCommandOfHash (map string_bytes arguments.now) command.now) }
    ensures none { IfNone result (IsOtherCommand (map string_bytes arguments.now) command.now) }
{
    match arguments {
        [token] if token.as_str() == command => Some(hash::Kind::Sha1),
        [token, sha256] if token.as_str() == command && sha256.as_str() == "sha256" => {
            Some(hash::Kind::Sha256)
        }
        _ => None,
    }
}

/// Returns the arguments after the program's name. The list of arguments allocates.
///
/// # Errors
///
/// - [`Failure::Usage`] if a read of the arguments fails, for example if one isn't UTF-8.
/// - [`Failure::OutOfMemory`] if the allocation of the arguments failed.
pub fn process_arguments<R: Env + AllocGlobal>(rt: &R) -> Result<Vec<String>, Failure>
    ensures error { IfErr result (λ cause. (cause ≡ Usage) ⊎ (cause ≡ OutOfMemory)) }
{
    let mut args = match env::args(rt) {
        Ok(args) => args,
        Err(error) if error.kind() == ErrorKind::OutOfMemory => return Err(Failure::OutOfMemory),
        Err(_) => return Err(Failure::Usage),
    };
    let _ = args.next();
    match args.collect(rt.alloc()) {
        Ok(arguments) => Ok(arguments),
        Err(_) => Err(Failure::OutOfMemory),
    }
}
