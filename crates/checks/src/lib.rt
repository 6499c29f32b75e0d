// Whether a text's lines are well formed: every cause of refusal, in its order.
#![tactic(auto)]

pub mod check;
pub mod refusal;
