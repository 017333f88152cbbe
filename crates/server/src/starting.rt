// Start.
ghost use Rattle.server.specs.Starting.{Starts};

use crate::state::{Server, fresh};
use dso::is_name;
use service::Refusal;
use wire::write_octets;

pub const MAX_NAME: usize = 255;

// The lent memory of the zone's name.
pub type Name = [u8; MAX_NAME];

// With a zone's name, whose octets are kept in the lent memory.
pub fn start(zone: &[u8], octets: &mut Name) -> Result<Server, Refusal>
    ensures { Starts zone.now octets.old octets.new result }
{
    if !is_name(zone) {
        return Err(Refusal::NotAName);
    }
    write_octets(octets, 0, zone);
    Ok(fresh(zone.len()))
}
