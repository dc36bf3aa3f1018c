// The promises: no code, only specs/ and proofs/.
#![tactic(auto)]

#[derive(Clone, Copy)]
pub struct Nothing {
    pub none: u32,
}
