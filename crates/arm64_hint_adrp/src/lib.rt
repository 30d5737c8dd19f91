// The hint rules that make an address by ADRP: ADRP_ADRP, ADRP_LDR, ADRP_ADD, ADRP_ADD_LDR and ADRP_ADD_STR (arch/arm64.rs).
#![tactic(auto)]

pub mod three;
pub mod two;
