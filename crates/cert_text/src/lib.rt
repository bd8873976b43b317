//! What proves an answer of a search: cover lists and certificates, what follows from them, and the
//! text of a certificate, both ways.
#![tactic(auto)]

mod cert;
mod cover_lists;
#[cfg(test)]
mod tests;
mod text;

pub use cert::{Cert, CertKind, CertLabel, CertLabels, CertLayers, StepRun, StepRuns};
pub use cover_lists::{
    EtaBound, Grown, LabelBound, cover_lists_prove, departs_later, is_pruned, may_idle_after,
    minute_at,
};
pub use text::{
    CERT_LIMIT, CertFault, MOST_LABELS, cert_texts_fit, certs_are_spelled_once, read_cert,
    write_cert,
};
pub use tour_model::Label;
