// The building blocks at the C boundary, for tests only. Each function gives 1 for done and 0 for refused, a test 1 for yes and 0 for no. A refusal changes no
// byte of the buffer, which is the last slice; where the buffer is longer than the answer its rest stays as it was.
// Kept: 1 and 0 as answers, and the numbers `padded`, `wide` and `ad_given`: the C interface.
#![tactic(auto)]

pub mod authenticated;
pub mod cipher;
pub mod counter;
pub mod deterministic;
pub mod hash;
pub mod text;
