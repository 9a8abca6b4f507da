//! What the real world keeps.
ghost use Rattle.std.specs.Prelude.{◌≡◌, None, IfOk};
ghost use Rattle.world.specs.Counts.{Counts};

use crate::drawing::PortDrawer;
use crate::held_files::HeldFiles;
use crate::link::Link;
use crate::moment::Moment;
use crate::{Complaint, Departure};
use jtext::NoMemory;
use mio::{Events, Poll};
use std::alloc::{AllocError, Global};
use std::fs::File;
use std::net::Net;
use std::process::{Child, Processes};
use std::rt::{Clock, Files};
use world::{Journal, World};

/// How many reports the system gives at once, one for each place.
const REPORTS: usize = 64;

/// The connections, four to each of 16 jobs.
const PLACES: usize = 64;

/// The child programs, one to each job.
const JOBS: usize = 16;

/// Files, connections, child programs, the clock, random words and the standard output, by the
/// runtime's calls.
#[derive(Drop)]
pub struct RealWorld<R: Files<File = File> + Net + Processes + Clock + Print + Drop> {
    pub(crate) rt: R,
    pub(crate) alloc: Global,
    // The number of this process, which each child is told.
    pub(crate) process: u32,
    // Made at the first connect.
    pub(crate) poll: Option<Poll>,
    pub(crate) events: Events,
    pub(crate) links: Vec<Option<Link>>,
    pub(crate) ports: PortDrawer<R>,
    // Those of each job.
    pub(crate) job_ports: Vec<Option<[u16; 5]>>,
    pub(crate) held: HeldFiles,
    pub(crate) children: Vec<Option<Child<R::Started>>>,
    pub(crate) moment: Moment,
    pub(crate) waits: u64,
    pub(crate) disk_faults: u64,
    pub(crate) net_faults: u64,
    pub(crate) child_faults: u64,
    pub(crate) rand_faults: u64,
    pub(crate) say_faults: u64,
    pub(crate) complaint: Option<Complaint>,
    pub(crate) departure: Option<Departure>,
    // A kernel has ended a connection.
    pub(crate) parted: bool,
}

impl<R: Files<File = File> + Net + Processes + Clock + Print + Drop> RealWorld<R> {
    /// The world of this runtime, with no call yet. `process` is the number of this process, as
    /// `std::process::id` gives it.
    pub fn new(rt: R, alloc: Global, process: u32) -> Result<RealWorld<R>, NoMemory>
        ensures disk { IfOk result (λ w. w.disk_faults ≡ 0) }
        ensures net { IfOk result (λ w. (w.net_faults ≡ 0) × (w.waits ≡ 0)) }
        ensures others { IfOk result (λ w. (w.child_faults ≡ 0) × (w.rand_faults ≡ 0)) }
        ensures say { IfOk result (λ w. w.say_faults ≡ 0) }
        ensures clock { IfOk result (λ w. w.moment.ms ≡ 0) }
    {
        Ok(RealWorld {
            rt,
            alloc,
            process,
            poll: None,
            events: Events::with_capacity(alloc, REPORTS)?,
            links: free_slots(alloc, PLACES)?,
            ports: PortDrawer::new(alloc, process),
            job_ports: free_slots(alloc, JOBS)?,
            held: HeldFiles::new(alloc),
            children: free_slots(alloc, JOBS)?,
            moment: Moment::start(),
            waits: 0,
            disk_faults: 0,
            net_faults: 0,
            child_faults: 0,
            rand_faults: 0,
            say_faults: 0,
            complaint: None,
            departure: None,
            parted: false,
        })
    }

    /// What the system said of the last call that failed.
    pub fn complaint(&self) -> Option<&Complaint> {
        self.complaint.as_ref()
    }

    /// How the last child ended that was seen to end by itself.
    pub fn departure(&self) -> Option<Departure> {
        self.departure
    }

    /// Whether a kernel has ended a connection.
    pub fn has_parted(&self) -> bool {
        self.parted
    }
}

// So many slots, all free.
fn free_slots<T: Drop>(alloc: Global, count: usize) -> Result<Vec<Option<T>>, AllocError> {
    let mut slots = Vec::new(alloc);
    for _ in 0..count {
        slots.push(None)?;
    }
    Ok(slots)
}

impl<R: Files<File = File> + Net + Processes + Clock + Print + Drop> Journal for RealWorld<R> {
    ghost journal = { λ _. None };

    ghost counts = { λ w. record {
      disk = w.disk_faults;
      net = w.net_faults;
      waits = w.waits;
      child = w.child_faults;
      rand = w.rand_faults;
      say = w.say_faults;
      last = w.moment.ms;
    } };
}

impl<R: Files<File = File> + Net + Processes + Clock + Print + Drop> World for RealWorld<R> {}
