//! The drawing of free ports.
ghost use Rattle.std.specs.Prelude.{◌≡◌, IfOk, OnOk, ◌++◌};
ghost use Rattle.world_real.specs.Ports.{AreFresh, AreOfOneBlock};

use crate::given_ports::GivenPorts;
use crate::port_block::{PortBlock, lock_block};
use std::alloc::Global;
use std::io;
use std::io::ErrorKind;
use std::net::Net;

/// How many blocks are tried: in a block that holds ports of other programs five may not be left.
const BLOCKS: u32 = 16;

/// The ports that a run draws, and those that it has given to its jobs.
#[derive(Drop)]
pub(crate) struct PortDrawer<R: Net> {
    // The blocks that are locked; the last one is drawn from.
    blocks: Vec<PortBlock<R::Listener>>,
    given: GivenPorts,
    // Where the search for a block begins, so that two runs seldom try the same one.
    from: u32,
}

impl<R: Net> PortDrawer<R> {
    /// No port was given yet.
    pub(crate) fn new(alloc: Global, from: u32) -> PortDrawer<R> {
        PortDrawer {
            blocks: Vec::new(alloc),
            given: GivenPorts::new(alloc),
            from,
        }
    }

    /// Five free ports of a block that this run has locked, none of which was given before.
    pub(crate) fn draw(&mut self, net: &R) -> io::Result<[u16; 5]>
        ensures fresh { IfOk result (AreFresh self.old.given.ports.items) }
        ensures block { IfOk result AreOfOneBlock }
        ensures kept { IfOk result (λ five.
            self.new.given.ports.items ≡ self.old.given.ports.items ++ five) }
    {
        for _ in 0..BLOCKS {
            if let Some(block) = self.blocks.last_mut() {
                if let Ok(five) = five_of(net, block, &self.given) {
                    self.given.keep(five)?;
                    return Ok(five);
                }
            }
            self.blocks.push(lock_block(net, self.from)?)?;
        }
        Err(io::Error::from(ErrorKind::AddrInUse))
    }
}

// Five free ports of the block that may be given after those.
fn five_of<R: Net>(
    net: &R,
    block: &mut PortBlock<R::Listener>,
    before: &GivenPorts,
) -> io::Result<[u16; 5]>
    ensures fresh { IfOk result (AreFresh before.now.ports.items) }
    ensures block { IfOk result AreOfOneBlock }
{
    let a = block.free_port(net)?;
    let b = block.free_port(net)?;
    let c = block.free_port(net)?;
    let d = block.free_port(net)?;
    let e = block.free_port(net)?;
    match before.five_of(a, b, c, d, e) {
        Some(five) => Ok(five),
        None => Err(io::Error::from(ErrorKind::AddrInUse)),
    }
}
