//! The real world: files, sockets of this machine, child programs, the clock, random words and the
//! standard output, by the runtime's calls. It counts the calls that failed and tells no journal:
//! what the system holds and does, no contract can say. What the world answers is, for each way in
//! which a call of the system can end, said in `specs/`.
#![tactic(auto)]

mod answers;
mod children;
mod complaint;
mod departure;
mod disk;
mod drawing;
mod epoch;
mod file_id;
mod given_ports;
mod held_file;
mod held_files;
mod link;
mod locking;
mod making;
mod moment;
mod port_block;
mod real_world;
mod sources;
mod standing;
mod trouble;
mod wire;

pub use complaint::Complaint;
pub use departure::Departure;
pub use file_id::FileId;
pub use moment::Moment;
pub use real_world::RealWorld;
