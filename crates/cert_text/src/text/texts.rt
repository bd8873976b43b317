//! What follows of the texts of certificates. The functions do nothing: their clauses are the laws.
ghost use Rattle.std.specs.Prelude.{◌≡◌, ◌≤◌, ℕ, List, length, sum_by};
ghost use Rattle.duty_core.specs.declared.params.Params.{Params};
ghost use Rattle.tour_model.specs.Tour.{IsTour};
ghost use Rattle.cert_text.specs.declared.cert.Cert.{Cert};
ghost use Rattle.cert_text.specs.declared.text.limits.TheConstants.{CERT_LIMIT, MOST_LABELS};
ghost use Rattle.cert_text.specs.Text.Form.{IsCertForm};
ghost use Rattle.cert_text.specs.Text.Spelling.{IsCertText};

use tour_model::Tour;

/// Each certificate that has a text has just one, and no other certificate has that text.
pub fn certs_are_spelled_once(tour: &Tour)
    requires { IsTour tour.now }
    ensures one_text { (cert : Cert) (a b : List ℕ) → IsCertText tour.now.params cert a → IsCertText tour.now.params cert b → a ≡ b }
    ensures one_cert { (a b : Cert) (text : List ℕ) → IsCertForm tour.now.params a → IsCertForm tour.now.params b →
        IsCertText tour.now.params a text → IsCertText tour.now.params b text → a ≡ b }
{
    let _ = tour;
}

/// The text of a certificate of at most `MOST_LABELS` labels has at most `CERT_LIMIT` bytes.
pub fn cert_texts_fit()
    ensures { (params : Params) (cert : Cert) (text : List ℕ) → IsCertForm params cert → IsCertText params cert text →
        sum_by length cert.layers ≤ MOST_LABELS → length text ≤ CERT_LIMIT }
{}
