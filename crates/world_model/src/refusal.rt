use letter_types::Cause;
use tv_base::SubNo;

/// A negative vote: the subtransaction that cast it, and its cause.
#[derive(Clone, Copy, Debug, PartialEq, Eq)]
pub struct NegativeVote {
    pub sub: SubNo,
    pub cause: Cause,
}
