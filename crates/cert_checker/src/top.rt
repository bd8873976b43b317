//! The check of a certificate's bytes.
ghost use Rattle.std.specs.Prelude.{◌≡◌, ◌*◌, ◌≤◌, length, IfOk};
ghost use Rattle.duty_core.specs.declared.limits.TheConstants.{LONGEST_LOG};
ghost use Rattle.duty_core.specs.Lawful.{IsLawful};
ghost use Rattle.duty_core.specs.Params.{unit_minutes};
ghost use Rattle.tour_model.specs.Schedule.{log_start};
ghost use Rattle.tour_model.specs.Tour.{IsTour};
ghost use Rattle.cert_checker.specs.Verdicts.{IsSmallCert, IsVerdict, Proves};
ghost use Rattle.cert_checker.specs.Asked.{IsCheckable};
ghost use Rattle.cert_checker.specs.Checked.{IsVerdictFor, IsCheck, Follows};

use crate::check::check_parsed;
use crate::verdict::{Reason, Verdict};
use cert_text::{Cert, CertFault, read_cert};
use duty_core::{NoMemory, unit_of};
use rule_books::{BookUser, with_book};
use rule_core::{Replayed, RuleBook, replay};
use std::alloc::Global;
use timeline::Timeline;
use tour_model::Tour;

/// Checks a certificate by a rule book.
fn check_by<B: RuleBook>(
    alloc: Global,
    book: &B,
    tour: &Tour,
    log: &Timeline,
    cert: &Cert,
) -> Result<Verdict, NoMemory>
    requires tour { IsTour tour.now }
    requires params { (B.machine book.now).params ≡ tour.now.params }
    requires short { unit_minutes tour.now.params * length log.now ≤ LONGEST_LOG }
    requires lawful { IsLawful tour.now.params (log_start tour.now log.now) log.now }
    requires cert { IsSmallCert cert.now }
    ensures verdict { IfOk result (IsVerdict tour.now log.now (B.machine book.now) cert.now) }
    ensures proves { IfOk result (Proves tour.now log.now cert.now) }
{
    let first = tour.start - unit_of(tour.params) * log.len();
    match replay(alloc, book, log, first)? {
        Replayed::Lawful(roots) => check_parsed(alloc, book, tour, log, &roots, cert),
        Replayed::Unlawful { .. } => unreachable!(),
    }
}

/// A certificate to be checked, of a tour after a lawful log.
#[derive(Drop)]
struct CertCheck<'a> {
    alloc: Global,
    tour: &'a Tour,
    log: &'a Timeline,
    cert: &'a Cert,
}

impl BookUser for CertCheck<'_> {
    type Answer = Result<Verdict, NoMemory>;

    ghost asks = { λ self params. IsCheckable self.tour.now self.log.now self.cert.now params };

    ghost gives = { λ self m answer. IfOk answer (IsVerdict self.tour.now self.log.now m self.cert.now) × IfOk answer (Proves self.tour.now self.log.now self.cert.now) };

    fn use_book<B: RuleBook>(self, book: &B) -> Result<Verdict, NoMemory> {
        check_by(self.alloc, book, self.tour, self.log, self.cert)
    }
}

/// Checks a certificate by the rule book of the tour's parameters.
fn check_read(alloc: Global, tour: &Tour, log: &Timeline, cert: &Cert) -> Result<Verdict, NoMemory>
    requires tour { IsTour tour.now }
    requires short { unit_minutes tour.now.params * length log.now ≤ LONGEST_LOG }
    requires lawful { IsLawful tour.now.params (log_start tour.now log.now) log.now }
    requires cert { IsSmallCert cert.now }
    ensures verdict { IfOk result (IsVerdictFor tour.now log.now cert.now) }
    ensures proves { IfOk result (Proves tour.now log.now cert.now) }
{
    let check = CertCheck {
        alloc,
        tour,
        log,
        cert,
    };
    with_book(alloc, tour.params, check)
}

/// Checks the bytes of a certificate of the tour after the lawful log.
///
/// They are accepted exactly where they are the text of a certificate that is valid for the tour.
/// Then its own schedule, where it has one, is lawful with its marks and a shortest one, and where it
/// has none, there is no solution. Bytes that are no certificate's text are rejected as `Grammar` at the line in which
/// reading stops; else the first line at which a condition fails is named, and the first that fails
/// there. How long the bytes may be is not this call's matter: it never answers `TooBig`.
///
/// `NoMemory` where there is none for the certificate, or for the states that the log leads to.
pub fn check_cert(
    alloc: Global,
    tour: &Tour,
    log: &Timeline,
    bytes: &[u8],
) -> Result<Verdict, NoMemory>
    requires tour { IsTour tour.now }
    requires short { unit_minutes tour.now.params * length log.now ≤ LONGEST_LOG }
    requires lawful { IsLawful tour.now.params (log_start tour.now log.now) log.now }
    ensures verdict { IfOk result (IsCheck tour.now log.now bytes.now) }
    ensures proves { IfOk result (Follows tour.now log.now bytes.now) }
{
    match read_cert(alloc, bytes, tour) {
        Ok(cert) => check_read(alloc, tour, log, &cert),
        Err(CertFault::Bad { line }) => Ok(Verdict::Rejected {
            line,
            reason: Reason::Grammar,
        }),
        Err(CertFault::Memory) => Err(NoMemory),
    }
}
