//! A verdict with the text that says it.

use mcv_verdict::Verdict;

/// A verdict, and the text that says it.
#[derive(Drop)]
pub(crate) struct Output {
    pub verdict: Verdict,
    pub text: Vec<u8>,
}
