// Making a station, and reading its rows and outputs.
ghost use Rattle.std.specs.Prelude.{◌≡◌, ◌≤◌, length, None};
ghost use Rattle.station.specs.Image.{all_ones, table_size};
ghost use Rattle.station.specs.Outputs.{OutsWithin};
ghost use Rattle.station.specs.Stations.{rows_of, outs_of};
ghost use Rattle.station.specs.Wires.{Wired};

use super::Station;
use sheet::Row;

impl Station {
    // A station that is not loaded yet.
    pub fn new() -> Station
        ensures wiring { result.wiring ≡ None }
        ensures last { result.last ≡ all_ones }
    {
        Station {
            wiring: None,
            last: [255; 8],
        }
    }

    // The rows of the sheet; none before the station is loaded.
    pub fn rows(&self) -> &[Row]
        ensures rows { result.now ≡ rows_of self.now }
        ensures wired { Wired result.now }
        ensures few { length result.now ≤ table_size }
    {
        match &self.wiring {
            Some(wiring) => wiring.rows(),
            None => &[],
        }
    }

    // The row of each output; none before the station is loaded.
    pub fn outs(&self) -> &[u8]
        ensures outs { result.now ≡ outs_of self.now }
        ensures within { OutsWithin result.now (length (rows_of self.now)) }
    {
        match &self.wiring {
            Some(wiring) => wiring.outs(),
            None => &[],
        }
    }
}
