// Which sheets a take uses: the definition and what is claimed of it in specs/, that it is so in proofs/. The code is op_run's.

#![tactic(auto)]

// So many sheets from a sheet on.
#[derive(Clone, Copy)]
pub struct Run {
    pub first: u32,
    pub count: u32,
}
