use vd_base::Inputs;
use vd_report::Schedule;
use vd_tape::Deals;

/// What the hosts of a program are to run on: the inputs and the deal of each, and a schedule; and whether links are reported.
#[derive(Drop)]
pub struct RunFiles {
    pub inputs: Inputs,
    pub deals: Deals,
    pub schedule: Schedule,
    pub messages: bool,
}
