//! Reports of signature verifiers, and their evaluation (git-config, `gpg.minTrustLevel`).
ghost use Rattle.std.specs.Prelude.{◌≡◌};
ghost use Rattle.gixobj_signature_reports.specs.Outcomes.{is_good_status, is_trusted, evaluated, outcome_view};
ghost use Rattle.gixobj_signature_reports.specs.Trust.{level, trust_of};

pub mod gpg;
pub mod ssh;

use bstr::BString;
use gixobj_parse::signature::Format;
pub use gpg::parse_gpg_output;
pub use ssh::parse_ssh_output;

/// The status of a signature, as its verifier reports it in an [`Outcome`].
#[derive(Clone, Copy, Debug, PartialEq, Eq)]
pub enum Status {
    /// The signature is good.
    Good,
    /// The signature is bad.
    Bad,
    /// The signature couldn't be checked, or the verifier reports several signatures.
    Error,
    /// The signature is good, but has expired.
    Expired,
    /// The signature is good, but its key has expired.
    ExpiredKey,
    /// The signature is good, but its key was revoked.
    RevokedKey,
    /// The verifier reports no known status.
    Unknown,
}

/// The trust that a key belongs to its owner, from the lowest level to the highest.
/// [`TrustLevel::from_bytes`] decodes one.
#[derive(Clone, Copy, Debug, Default, PartialEq, Eq, PartialOrd, Ord)]
pub enum TrustLevel {
    /// The trust is unknown.
    #[default]
    Undefined,
    /// The key is never trusted.
    Never,
    /// The key is marginally trusted.
    Marginal,
    /// The key is fully trusted. An SSH key is in the allowed signers file.
    Fully,
    /// The key is ultimately trusted, as one's own key is.
    Ultimate,
}

impl TrustLevel {
    /// Decodes the name of a trust level, ASCII case ignored (git-config, `gpg.minTrustLevel`).
    ///
    /// Returns `None` for an unknown name. Allocates nothing.
    pub fn from_bytes(name: &[u8]) -> Option<TrustLevel>
        ensures { result ≡ trust_of name.now }
    {
        if name.eq_ignore_ascii_case(b"undefined") {
            return Some(TrustLevel::Undefined);
        }
        if name.eq_ignore_ascii_case(b"never") {
            return Some(TrustLevel::Never);
        }
        if name.eq_ignore_ascii_case(b"marginal") {
            return Some(TrustLevel::Marginal);
        }
        if name.eq_ignore_ascii_case(b"fully") {
            return Some(TrustLevel::Fully);
        }
        if name.eq_ignore_ascii_case(b"ultimate") {
            return Some(TrustLevel::Ultimate);
        }
        None
    }
}

/// The outcome of the verification of a signature.
///
/// [`parse_gpg_output`] and [`parse_ssh_output`] make one, and [`evaluate`] decides whether it is valid.
#[derive(Clone, Debug, Drop, PartialEq, Eq)]
pub struct Outcome {
    /// The format of the signature.
    pub format: Format,
    /// The status of the signature.
    pub status: Status,
    /// The trust in the key of the signature.
    pub trust_level: TrustLevel,
    /// The signer: the name that is reported with the key or, for SSH, the accepted principal.
    pub signer: Option<BString>,
    /// The ID of the key or, for SSH, its fingerprint.
    pub key: Option<BString>,
    /// The fingerprint of the key.
    pub fingerprint: Option<BString>,
    /// The fingerprint of the primary key, `None` for SSH.
    pub primary_key_fingerprint: Option<BString>,
    /// The human-readable output of the verifier.
    pub output: BString,
    /// The machine-readable output of the verifier. For SSH it equals `output`.
    pub raw_output: BString,
    valid: bool,
}

impl Outcome {
    /// Returns whether the signature is valid.
    ///
    /// It is valid if the verifier succeeded, the status is `Good`, and the trust is at least the minimum
    /// that [`evaluate`] received. Before `evaluate` it isn't valid. Allocates nothing.
    pub fn is_valid(&self) -> bool
        ensures { result ≡ (outcome_view self.now).valid }
    {
        self.valid
    }
}

/// Evaluates the report of a verifier's call.
///
/// The outcome is valid if and only if the call succeeded (`success`), the status is `Good`, and the trust is
/// at least `minimum`. Allocates nothing.
pub fn evaluate(report: Outcome, success: bool, minimum: TrustLevel) -> Outcome
    ensures { outcome_view result ≡ evaluated success minimum (outcome_view report) }
{
    let mut outcome = report;
    outcome.valid = success && is_good(outcome.status) && is_at_least(outcome.trust_level, minimum);
    outcome
}

/// Returns whether the status is that of a good signature.
fn is_good(status: Status) -> bool
    ensures { result ≡ is_good_status status }
{
    matches!(status, Status::Good)
}

/// Returns whether the trust is at least the minimum.
fn is_at_least(trust: TrustLevel, minimum: TrustLevel) -> bool
    ensures { result ≡ is_trusted minimum trust }
{
    rank_of(minimum) <= rank_of(trust)
}

/// Returns the rank of a trust level, 0 for the lowest.
fn rank_of(trust: TrustLevel) -> u8
    ensures { result ≡ level trust }
{
    match trust {
        TrustLevel::Undefined => 0,
        TrustLevel::Never => 1,
        TrustLevel::Marginal => 2,
        TrustLevel::Fully => 3,
        TrustLevel::Ultimate => 4,
    }
}
