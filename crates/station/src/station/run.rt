// Running a whole list of calls.
ghost use Rattle.std.specs.Prelude.{map, length};
ghost use Rattle.block.specs.Of.{meaning};
ghost use Rattle.station.specs.Runs.{Called, Ran, call_of};

use super::Station;
use crate::request::Request;
use block::Block;

impl Station {
    // Makes the calls of a list in order; each is answered as if it were made alone, and the answers are let go.
    pub fn run<B: Block>(&mut self, requests: &[Request], table: &mut [B], outputs: &mut [u8])
        ensures { Ran (meaning B.Block) (map (call_of (length table.old) (length outputs.old)) requests.now) self.old self.new table.old table.new outputs.old outputs.new }
    {
        for request in requests {
            self.serve(request, table, outputs);
        }
    }

    // One call of a list.
    fn serve<B: Block>(&mut self, request: &Request, table: &mut [B], outputs: &mut [u8])
        ensures { Called (meaning B.Block) (call_of (length table.old) (length outputs.old) request.now) self.old self.new table.old table.new outputs.old outputs.new }
    {
        match request {
            Request::Scan { image, elapsed } => {
                let _ = self.scan(table, image, *elapsed, outputs);
            }
            Request::Halt => {
                let _ = self.halt(table, outputs);
            }
        }
    }
}
