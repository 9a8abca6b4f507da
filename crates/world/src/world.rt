//! The whole world.
use crate::{Clock, Disk, Journal, Kids, Rand, Say, Wire};

/// All parts over one journal.
pub trait World: Journal + Disk + Wire + Kids + Clock + Rand + Say {}
