//! A certificate's text, both ways.
mod claim;
mod fault;
mod layers;
mod limits;
mod marks;
mod read;
mod runs;
mod texts;
mod words;
mod write;

pub use fault::CertFault;
pub use limits::{CERT_LIMIT, MOST_LABELS};
pub use read::read_cert;
pub use texts::{cert_texts_fit, certs_are_spelled_once};
pub use write::write_cert;
