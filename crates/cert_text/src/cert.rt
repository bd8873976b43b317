//! A certificate: what it says, and what proves it.
use duty_core::{Activity, Marks, TryVec};
use rule_core::Numbers;

/// What a certificate claims.
#[derive(Clone, Copy, Debug, PartialEq, Eq)]
pub enum CertKind {
    /// Its schedule is a shortest one.
    Shortest,
    /// There is no schedule.
    Infeasible,
}

/// So many steps of one activity.
#[derive(Clone, Copy, Debug, PartialEq, Eq)]
pub struct StepRun {
    pub count: u32,
    pub act: Activity,
}

/// A label as it is written down: its departure, its progress, and the numbers of its state, which
/// the rule book chooses.
#[derive(Drop)]
pub struct CertLabel {
    pub depart: Option<u32>,
    pub progress: u32,
    pub numbers: Numbers,
}

/// Runs of steps, in their order. Contracts see their list.
pub type StepRuns = TryVec<StepRun>;

/// The labels of a layer, in their order. Contracts see their list.
pub type CertLabels = TryVec<CertLabel>;

/// The layers of a certificate, one for each step from 0 on. Contracts see the list of their lists.
pub type CertLayers = TryVec<CertLabels>;

/// A certificate. `target` is the duration in steps that no solution goes below; None where there is
/// no solution. The schedule and its marks are empty then.
#[derive(Drop)]
pub struct Cert {
    pub kind: CertKind,
    pub target: Option<u32>,
    pub schedule: StepRuns,
    pub marks: Marks,
    pub layers: CertLayers,
}

#[cfg(test)]
mod tests {
    use super::*;
    use std::test::Fail;

    #[test]
    fn holds_what_it_is_given(rt: HostRuntime) -> Result<(), Fail> {
        let alloc = rt.alloc();
        let run = StepRun {
            count: 8,
            act: Activity::Drive,
        };
        let mut schedule = StepRuns::new(alloc);
        schedule.push(run)?;
        let mut numbers = Numbers::new(alloc);
        numbers.push(600)?;
        let mut labels = CertLabels::new(alloc);
        labels.push(CertLabel {
            depart: None,
            progress: 0,
            numbers,
        })?;
        let mut layers = CertLayers::new(alloc);
        layers.push(labels)?;
        let cert = Cert {
            kind: CertKind::Shortest,
            target: Some(10),
            schedule,
            marks: Marks::new(alloc),
            layers,
        };
        assert_eq!(rt; cert.kind, CertKind::Shortest);
        assert_eq!(rt; cert.schedule.items(), [run].as_slice());
        assert_eq!(rt; cert.layers.items().len(), 1);
        let label = &cert.layers.items()[0].items()[0];
        assert_eq!(rt; label.depart, None);
        assert_eq!(rt; label.numbers.items(), [600].as_slice());
        Ok(())
    }
}
