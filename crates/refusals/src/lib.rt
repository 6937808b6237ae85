// Why a call is turned down: one enum for every bench call, each case paired with its number here and nowhere else.
#![tactic(auto)]

pub mod refusal;
