// One request of a desk.
ghost use Rattle.std.specs.Prelude.{◌≡◌, Some};
ghost use Rattle.block.specs.Of.{meaning};
ghost use Rattle.desk.specs.Desks.{Served, Answered, shown};
ghost use Rattle.desk.specs.Pasts.{EveryPastGoesOn};
ghost use Rattle.desk.specs.declared.request.Request.TheVariants as request;

use super::Desk;
use crate::answer::Answer;
use crate::call::call_station;
use crate::request::{Call, Request};
use block::Block;

// The first two output bytes; 0 for one that the desk has not.
fn shown(outputs: &[u8]) -> [u8; 2]
    ensures { result ≡ shown outputs.now }
{
    [0, 1].map(|i| outputs.get(i).copied().unwrap_or(0))
}

impl Desk {
    // Makes a call, which is lent the first blocks and bytes.
    fn answer<B: Block>(&mut self, call: &Call, table: &mut [B], outputs: &mut [u8]) -> Answer
        ensures served { Answered (meaning B.Block) call.now (Some result) self.old self.new table.old table.new outputs.old outputs.new }
        ensures past { EveryPastGoesOn (meaning B.Block) (request.Call call.now) (Some result) self.old self.new table.old table.new outputs.old outputs.new }
    {
        let blocks = self.blocks.min(table.len());
        let bytes = self.bytes.min(outputs.len());
        let reply = call_station(
            &mut self.station,
            call,
            &mut table[..blocks],
            &mut outputs[..bytes],
        );
        Answer {
            reply,
            outputs: shown(outputs),
        }
    }

    // Serves one request; none where it is no call.
    pub fn serve<B: Block>(
        &mut self,
        request: &Request,
        table: &mut [B],
        outputs: &mut [u8],
    ) -> Option<Answer>
        ensures served { Served (meaning B.Block) request.now result self.old self.new table.old table.new outputs.old outputs.new }
        ensures past { EveryPastGoesOn (meaning B.Block) request.now result self.old self.new table.old table.new outputs.old outputs.new }
    {
        match request {
            Request::Call(call) => Some(self.answer(call, table, outputs)),
            Request::Blocks(n) => {
                self.blocks = usize::from(*n);
                None
            }
            Request::Bytes(n) => {
                self.bytes = usize::from(*n);
                None
            }
        }
    }
}
