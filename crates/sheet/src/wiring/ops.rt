// Making and reading a wiring.
ghost use Rattle.std.specs.Prelude.{◌≡◌, true};
ghost use Rattle.sheet.specs.Wired.{wiring_allowed};
ghost use Rattle.sheet.specs.Wires.{MadeOf, listed, routed, RowsWired, OutsWired};

use super::Wiring;
use crate::head::Head;
use crate::row::Row;
use block::Times;

impl Wiring {
    // The tables of a sheet that keeps the rules.
    pub(crate) fn new(head: Head, rows: [Row; 32], outs: [u8; 16]) -> Wiring
        requires { wiring_allowed head.count rows head.outputs outs ≡ true }
        ensures { MadeOf head rows outs result }
    {
        Wiring {
            times: head.times,
            count: head.count,
            rows,
            outputs: head.outputs,
            outs,
        }
    }

    // The shortest and the longest press of a reset button.
    pub fn times(&self) -> Times
        ensures { result ≡ self.now.times }
    {
        self.times
    }

    // How many rows the sheet has.
    pub fn count(&self) -> u8
        ensures { result ≡ self.now.count }
    {
        self.count
    }

    // How many outputs the sheet has.
    pub fn outputs(&self) -> u8
        ensures { result ≡ self.now.outputs }
    {
        self.outputs
    }

    // The rows of the sheet, row 00 first.
    pub fn rows(&self) -> &[Row]
        ensures rows { result.now ≡ listed self.now }
        ensures wired { RowsWired self.now.count result.now }
    {
        &self.rows[..self.count as usize]
    }

    // The row of each output, output 00 first.
    pub fn outs(&self) -> &[u8]
        ensures outs { result.now ≡ routed self.now }
        ensures wired { OutsWired self.now.count self.now.outputs result.now }
    {
        &self.outs[..self.outputs as usize]
    }
}
