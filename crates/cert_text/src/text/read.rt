//! Reading a certificate.
ghost use Rattle.std.specs.Prelude.{◌≡◌, ◌≤◌, ◌<◌, ◌==◌, ℕ, length, take, Ok, IfOk, IfErr, MatchResult};
ghost use Rattle.std.specs.List.{count_by};
ghost use Rattle.duty_core.specs.Day.{day_start};
ghost use Rattle.tour_model.specs.Tour.{IsTour};
ghost use Rattle.cert_text.specs.declared.cert.Cert.{Cert};
ghost use Rattle.cert_text.specs.declared.text.fault.CertFault.{CertFault};
ghost use Rattle.cert_text.specs.Text.BadLine.{IsFault};
ghost use Rattle.cert_text.specs.Text.Form.{IsCertForm};
ghost use Rattle.cert_text.specs.Text.Spelling.{IsCertText};
ghost use Rattle.cert_text.specs.Text.Reading.{Gives, target_at, shortest_at, infeasible_at, kind_at, claim_at, whole_at, cert_at, line_at, IsOutcome};

use crate::cert::{Cert, CertKind, StepRuns};
use crate::text::claim::Claim;
use crate::text::fault::{CertFault, Stop};
use crate::text::layers::layers;
use crate::text::marks::marks;
use crate::text::runs::runs;
use crate::text::words::{number_line, strip, word};
use duty_core::{Marks, Params};
use std::alloc::Global;
use tour_model::Tour;

/// The target of a certificate of kind shortest, which is at least 1.
#[tactic(auto, unfolding(crate::specs::Text::Reading::target_at))]
fn target(bytes: &[u8]) -> Result<(u32, &[u8]), Stop>
    ensures { Gives (λ x. (x.0, x.1.now)) result (target_at bytes.now) }
{
    let (found, rest) = number_line(b"target ", bytes)?;
    if found > 0 {
        Ok((found, rest))
    } else {
        Err(Stop::Left(bytes.len()))
    }
}

/// The claim of a certificate of kind shortest, after the line of its kind.
#[tactic(auto, unfolding(crate::specs::Text::Reading::shortest_at))]
fn shortest(alloc: Global, params: Params, bytes: &[u8]) -> Result<(Claim, &[u8]), Stop>
    requires { day_start params < 1440 }
    ensures { Gives (λ x. (x.0, x.1.now)) result (shortest_at params bytes.now) }
{
    let (target, rest) = target(bytes)?;
    let (run_count, rest) = number_line(b"schedule ", rest)?;
    let (schedule, rest) = runs(alloc, run_count, rest)?;
    let (mark_count, rest) = number_line(b"marks ", rest)?;
    let (marks, rest) = marks(alloc, params, mark_count, rest)?;
    let claim = Claim {
        kind: CertKind::Shortest,
        target: Some(target),
        schedule,
        marks,
    };
    Ok((claim, rest))
}

/// The claim of a certificate of kind infeasible, after the line of its kind.
#[tactic(auto, unfolding(crate::specs::Text::Reading::infeasible_at))]
fn infeasible(alloc: Global, bytes: &[u8]) -> Result<(Claim, &[u8]), Stop>
    ensures { Gives (λ x. (x.0, x.1.now)) result (infeasible_at bytes.now) }
{
    let rest = word(b"target -\n", bytes)?;
    let rest = word(b"schedule 0\n", rest)?;
    let rest = word(b"marks 0\n", rest)?;
    let claim = Claim {
        kind: CertKind::Infeasible,
        target: None,
        schedule: StepRuns::new(alloc),
        marks: Marks::new(alloc),
    };
    Ok((claim, rest))
}

/// The kind of a certificate.
#[tactic(auto, unfolding(crate::specs::Text::Reading::kind_at))]
fn kind(bytes: &[u8]) -> Result<(CertKind, &[u8]), Stop>
    ensures { Gives (λ x. (x.0, x.1.now)) result (kind_at bytes.now) }
{
    match strip(b"kind shortest\n", bytes) {
        Some(rest) => Ok((CertKind::Shortest, rest)),
        None => {
            let rest = word(b"kind infeasible\n", bytes)?;
            Ok((CertKind::Infeasible, rest))
        }
    }
}

/// What a certificate claims, from its first line to its marks.
#[tactic(auto, unfolding(crate::specs::Text::Reading::claim_at))]
fn claim(alloc: Global, params: Params, bytes: &[u8]) -> Result<(Claim, &[u8]), Stop>
    requires { day_start params < 1440 }
    ensures { Gives (λ x. (x.0, x.1.now)) result (claim_at params bytes.now) }
{
    let rest = word(b"duty-cert 1\n", bytes)?;
    let (kind, rest) = kind(rest)?;
    match kind {
        CertKind::Shortest => shortest(alloc, params, rest),
        CertKind::Infeasible => infeasible(alloc, rest),
    }
}

/// The certificate whose text stands at the front.
#[tactic(auto, unfolding(crate::specs::Text::Reading::whole_at))]
fn whole(alloc: Global, params: Params, bytes: &[u8]) -> Result<(Cert, &[u8]), Stop>
    requires { day_start params < 1440 }
    ensures { Gives (λ x. (x.0, x.1.now)) result (whole_at params bytes.now) }
{
    let (claim, rest) = claim(alloc, params, bytes)?;
    let (count, rest) = number_line(b"layers ", rest)?;
    let (layers, rest) = layers(alloc, count, rest)?;
    let rest = word(b"end\n", rest)?;
    let cert = Cert {
        kind: claim.kind,
        target: claim.target,
        schedule: claim.schedule,
        marks: claim.marks,
        layers,
    };
    Ok((cert, rest))
}

/// The certificate whose text the bytes are.
#[tactic(auto, unfolding(crate::specs::Text::Reading::cert_at))]
fn cert(alloc: Global, params: Params, bytes: &[u8]) -> Result<Cert, Stop>
    requires { day_start params < 1440 }
    ensures { Gives (λ x. x) result (cert_at params bytes.now) }
{
    let (cert, rest) = whole(alloc, params, bytes)?;
    if rest.is_empty() {
        Ok(cert)
    } else {
        Err(Stop::Left(rest.len()))
    }
}

/// Reads the text of a certificate of a tour.
///
/// The text is that of a certificate that has one, and of no other: `write_cert` says which these
/// are. `Bad` comes exactly where the bytes are no such text, and `line` is the least k, from 1, such
/// that no certificate's text begins with the first k lines; a last line without its LF begins none.
pub fn read_cert(alloc: Global, bytes: &[u8], tour: &Tour) -> Result<Cert, CertFault>
    requires { IsTour tour.now }
    // What is read is a certificate that has a text, and the bytes are that text.
    ensures found { IfOk result (λ cert. IsCertForm tour.now.params cert × IsCertText tour.now.params cert bytes.now) }
    // The text of a certificate is read as that certificate, unless memory runs out.
    ensures only { (cert : Cert) → IsCertForm tour.now.params cert → IsCertText tour.now.params cert bytes.now → MatchResult result (λ found. found ≡ cert) (λ fault. fault ≡ CertFault.Memory) }
    // Bytes that are no text of a certificate have a first bad line.
    ensures bad { IfErr result (IsFault tour.now.params bytes.now) }
    // It is the one at which reading from left to right stops.
    ensures exact { IsOutcome bytes.now result (cert_at tour.now.params bytes.now) }
{
    match cert(alloc, tour.params, bytes) {
        Ok(cert) => Ok(cert),
        Err(Stop::Memory) => Err(CertFault::Memory),
        Err(Stop::Left(left)) => Err(CertFault::Bad {
            line: line_of(bytes, left),
        }),
    }
}

/// The line that holds the first of the last `left` bytes, counted from 1.
fn line_of(bytes: &[u8], left: usize) -> u64
    ensures { result ≡ line_at bytes.now left }
{
    let (before, _) = bytes.split_at(bytes.len().saturating_sub(left));
    let mut line = 1;
    for byte in before {
        if *byte == b'\n' {
            line += 1;
        }
    }
    line
}
