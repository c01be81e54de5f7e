//! What explains an address.
use gl_cert::Cert;
use gl_demand::Budget;

/// Why an address shows what it shows: a certificate; or the walk would go through more than
/// `MAX_DEMANDED` keys; or the key that decides spends a budget.
#[derive(Drop)]
pub enum Explained {
    Cert(Cert),
    Work,
    Aborts(Budget),
}
