//! Reads a network document.

ghost use Rattle.net_reader.specs.Readings.{IsReading};

use crate::document::Network;
use crate::naming::test_names;
use crate::refusal::ReadRefusal;
use rail_net::{Net, NetRefusal};
use std::alloc::Global;
use vss_json::{DocumentFault, ShapeFault, read_document};

/// The network of a document's bytes, or the first refusal in the order of their kinds. Linear in the
/// bytes but for hashed look-ups of names and the sorting of the tracks' ends.
pub fn read_net(alloc: Global, bytes: &[u8]) -> Result<Net, ReadRefusal>
    ensures { IsReading bytes.now result }
{
    let parts = match read_document(alloc, &Network, bytes) {
        Ok(parts) => parts,
        Err(DocumentFault::NotJson) => return Err(ReadRefusal::NotJson),
        Err(DocumentFault::Shape(ShapeFault { member, item })) => {
            return Err(ReadRefusal::Shape { member, item });
        }
        Err(DocumentFault::Memory) => return Err(ReadRefusal::Memory),
    };
    match test_names(&parts) {
        Ok(()) => {}
        Err(spot) => return Err(ReadRefusal::BadName(spot)),
    }
    match Net::new(alloc, parts) {
        Ok(net) => Ok(net),
        Err(NetRefusal::Named { kind, spot }) => Err(ReadRefusal::Net { kind, spot }),
        Err(NetRefusal::Memory) => Err(ReadRefusal::Memory),
    }
}
