//! The limits on the text of a certificate.

/// The most labels of a search, and so of a certificate whose text is sure to fit.
pub const MOST_LABELS: u32 = 500_000;

/// The most bytes of a certificate's file.
pub const CERT_LIMIT: usize = 1_010_000_000;
