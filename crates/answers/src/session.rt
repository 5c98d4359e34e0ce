// What a program holds between two lines of its input, beside the journal.
use crate::cuts::Cuts;
use crate::held_network::HeldNetwork;
use crate::print::Output;
use std::io::Stdout;
use transition::step::Settings;

// The network, the settings, the minute of the calls, how much of each slice the next call gets, whether the last call that answers a list kept the
// entries past it, and the output.
#[derive(Drop)]
pub struct Session {
    pub network: HeldNetwork,
    pub settings: Settings,
    pub minute: u32,
    pub cuts: Cuts,
    pub kept: bool,
    pub out: Output,
}

impl Session {
    pub fn new(stdout: Stdout) -> Session {
        Session {
            network: HeldNetwork::empty(),
            settings: Settings {
                beta: 0.0,
                scale: 0.0,
            },
            minute: 0,
            cuts: Cuts::none(),
            kept: true,
            out: Output::new(stdout),
        }
    }
}
