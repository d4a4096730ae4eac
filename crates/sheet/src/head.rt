// The head of a sheet.
// No file of specs/ that names the record is imported here.
ghost use Rattle.std.specs.Prelude.{◌≤◌};
ghost use Rattle.sheet.specs.Limits.{most_rows, most_outs};

use block::Times;

// How many rows and outputs the sheet has, and its times.
#[derive(Clone, Copy)]
pub struct Head {
    pub count: u8,
    pub outputs: u8,
    pub times: Times,
    ghost few_rows: { count ≤ most_rows },
    ghost few_outs: { outputs ≤ most_outs },
}
