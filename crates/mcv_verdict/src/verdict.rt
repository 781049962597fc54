//! The verdict on a configuration.

use mcv_cert::Certificate;
use mcv_check::Accepted;
use mcv_route::Routes;
use mcv_witness::Finding;

/// The verdict on a configuration.
#[derive(Clone, Copy, Debug, PartialEq, Eq)]
pub enum Verdict {
    /// Each acknowledged delete was sent to every server that can be read: a certificate of so many pairs says why.
    Covered(u64),
    /// An acknowledged delete can leave a server that can be read without it.
    Lost,
}

/// What is found of a configuration by a certificate that is made for it.
#[derive(Drop)]
pub enum Judgement {
    /// Its routes are covered, and the certificate says why.
    Covered {
        accepted: Accepted,
        certificate: Certificate,
    },
    /// The text of the first finding on them.
    Lost {
        finding: Vec<u8>,
    },
}

/// What is found of routes, with what shows it.
#[derive(Drop)]
pub enum Judged {
    /// They are covered, and the certificate says why.
    Covered {
        accepted: Accepted,
        certificate: Certificate,
    },
    /// They aren't, and the finding shows it.
    Lost {
        routes: Routes,
        finding: Finding,
    },
}
