// Why a command of a log was refused; and, for reasons_c to export for Rust, the explanations of a log as bytes, and one call for measuring.
#![tactic(auto)]

mod explained;
pub mod said;
mod times;

pub use explained::nobrighi_explained;
pub use said::{LogExplanation, why_next};
pub use times::nobrighi_explain_times;
