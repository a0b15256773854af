// The figures of a tick report: those of a row of logs, counted from the answers alone (N13 to N17, N19, N20).
#![tactic(auto)]

mod count;

ghost use Rattle.std.specs.Prelude.{◌≡◌};
ghost use Rattle.tally.specs.Counting.{no_tally, with_log};

// The figures of some logs (N16, N17): table ticks, spare ticks and missed ticks of each VM; idle ticks; all accepted ticks.
#[derive(Clone, Copy)]
pub struct Tally {
    pub table: [u32; 8],
    pub spare: [u32; 8],
    pub missed: [u32; 8],
    pub idle: u32,
    pub ticks: u32,
}

impl Tally {
    // The most logs that a report has (N13).
    pub const LOGS: u8 = 16;

    // The figures of no log at all (N21).
    pub fn none() -> Tally
        ensures { result ≡ no_tally }
    {
        Tally {
            table: [0; 8],
            spare: [0; 8],
            missed: [0; 8],
            idle: 0,
            ticks: 0,
        }
    }

    // The figures with those of one more log (N14 to N17, N19, N20).
    pub fn with_log(self, image: &[u8], log: &[u8]) -> Tally
        ensures { result ≡ with_log image.now log.now self }
    {
        let Ok(config) = image_reader::read(image) else {
            return self;
        };
        if events::LONGEST < log.len() {
            return self;
        }
        count::run(self, config, log)
    }
}
