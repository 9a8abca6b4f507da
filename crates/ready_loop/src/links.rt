//! The table of the connections, over a slab.
ghost use Rattle.std.specs.Prelude.{◌≡◌, ◌<◌, Some, IfOk, slice_get, slice_set, replicate};
ghost use Rattle.slab.specs.Slab.{ContainsKey, Updates};
ghost use Rattle.ready_loop.specs.Link.{fresh_link, IsSteady};

use crate::link::Link;
use jtext::NoMemory;
use slab::Slab;
use std::alloc::Global;
use std::marker::Model;

/// What the loop keeps of the connections, by their places.
#[derive(Drop)]
pub struct Links {
    slab: Slab<Link>,
    /// The key of each place.
    keys: [usize; 64],
}

impl Model for Links {
    ghost use Rattle.std.specs.Prelude.{◌≡◌, List, length};
    ghost use Rattle.ready_loop.specs.declared.link.Link.{Link};
    ghost use Rattle.ready_loop.specs.Table.{links_of, AllHeld, AllApart, AllSteady};

    ghost Value = { List Link };

    ghost view = { λ a. links_of a.slab a.keys };

    ghost invariant = { λ a. AllHeld 64 a.slab a.keys × AllApart 64 a.keys
        × (length a.keys ≡ 64) × AllSteady (links_of a.slab a.keys) };
}

impl Links {
    /// No connection is begun.
    pub fn new(alloc: Global) -> Result<Links, NoMemory>
        ensures { IfOk result (λ links. links ≡ replicate 64 fresh_link) }
    {
        let mut slab = Slab::with_capacity(alloc, 64)?;
        let mut keys = [0; 64];
        for place in 0..64usize {
            keys[place] = slab.insert(Link::fresh())?;
        }
        Ok(Links { slab, keys })
    }

    /// What is kept of the connection at a place.
    pub fn at(&self, place: usize) -> Link
        requires { place < 64 }
        ensures found { slice_get self.now place ≡ Some result }
        ensures begun { IsSteady result }
    {
        self.slab[self.keys[place]]
    }

    /// Keeps this of the connection at a place.
    pub fn put(&mut self, place: usize, link: Link)
        requires within { place < 64 }
        requires begun { IsSteady link }
        ensures { self.new ≡ slice_set self.old place link }
    {
        let key = self.keys[place];
        put_under(&mut self.slab, key, link);
    }
}

/// Replaces what stands under a key.
fn put_under(slab: &mut Slab<Link>, key: usize, link: Link)
    requires { ContainsKey slab.old key }
    ensures { Updates slab.old slab.new key (Some link) }
{
    slab[key] = link;
}
