//! Child programs.
ghost use Rattle.std.specs.Prelude.{◌<◌, length};

use crate::answers::did_of;
use crate::complaint::note;
use crate::link::Link;
use crate::port_block::is_taken;
use crate::{Departure, RealWorld};
use jtext::{Fields, Text, Texts};
use std::alloc::{AllocError, Global};
use std::fs::File;
use std::io;
use std::net::Net;
use std::os::unix::process::ExitStatusExt;
use std::process::{Child, Command, ExitStatus, OpenProcess, Processes, Stdio};
use std::rt::{Clock, Files};
use std::time::Duration;
use world::{Did, Kids};

/// The variable by which a kernel knows who started it, and ends once that process is gone
/// (jupyter_client, `launch_kernel`).
const PARENT: &str = "JPY_PARENT_PID";

/// How often an ending child is looked at, and how many milliseconds apart.
const LOOKS: u32 = 10;

const APART: u64 = 5;

impl<R: Files<File = File> + Net + Processes + Clock + Print + Drop> Kids for RealWorld<R> {
    fn child_faults(&self) -> u64 {
        self.child_faults
    }

    fn start(&mut self, job: u8, argv: &Texts, env: &Fields, dir: &Text) -> Did {
        let at = job as usize;
        end_at(&self.rt, &mut self.children, at);
        let mother = Mother {
            rt: &self.rt,
            alloc: self.alloc,
            process: self.process,
        };
        let started = mother.spawn(argv.as_slice(), env, dir.as_str());
        let started = keep(started, &mut self.children, at);
        note(
            &mut self.complaint,
            self.alloc,
            argv.as_slice()[0].as_str(),
            &started,
        );
        did_of(started, &mut self.child_faults)
    }

    fn look(&mut self, job: u8) -> Option<i32> {
        let at = job as usize;
        let status = match self.children.get_mut(at) {
            Some(Some(child)) => status_of(child),
            _ => None,
        };
        if let Some(status) = status {
            self.departure = Some(Departure {
                status,
                was_heard: has_heard(self.links.as_slice(), at),
                taken_port: taken_port(&self.rt, self.job_ports.as_slice(), at),
            });
        }
        status
    }

    fn end(&mut self, job: u8) {
        end_at(&self.rt, &mut self.children, job as usize);
    }
}

/// What a start needs of the world.
#[derive(Drop)]
struct Mother<'a, R> {
    rt: &'a R,
    alloc: Global,
    process: u32,
}

impl<R: Processes> Mother<'_, R> {
    // The variables of `env` come last, so they go over ours.
    fn spawn(&self, argv: &[Text], env: &Fields, dir: &str) -> io::Result<Child<R::Started>>
        requires { 0 < length argv.now }
    {
        let mut command = Command::new(self.alloc, argv[0].as_str())?;
        add_words(&mut command, &argv[1..])?;
        let process = format!(in self.alloc; "{}", self.process)?;
        command.env(PARENT, process.as_str())?;
        add_variables(&mut command, env)?;
        command.current_dir(dir)?;
        command.stdin(Stdio::null());
        command.stdout(Stdio::null());
        command.stderr(Stdio::null());
        command.spawn(self.rt)
    }
}

fn add_words(command: &mut Command, words: &[Text]) -> Result<(), AllocError> {
    for word in words {
        command.arg(word.as_str())?;
    }
    Ok(())
}

fn add_variables(command: &mut Command, env: &Fields) -> Result<(), AllocError> {
    for (name, value) in env.as_slice() {
        if let Some(text) = value.as_text() {
            command.env(name.as_str(), text.as_str())?;
        }
    }
    Ok(())
}

// Puts the child into its slot.
fn keep<P: OpenProcess + Drop>(
    started: io::Result<Child<P>>,
    children: &mut Vec<Option<Child<P>>>,
    at: usize,
) -> io::Result<()> {
    let child = started?;
    if let Some(slot) = children.get_mut(at) {
        *slot = Some(child);
    }
    Ok(())
}

// The exit status, where the child has ended.
fn status_of<P: OpenProcess>(child: &mut Child<P>) -> Option<i32> {
    match child.try_wait() {
        Ok(Some(status)) => Some(number_of(status)),
        _ => None,
    }
}

// Whether a byte has passed on a connection of this job.
fn has_heard(links: &[Option<Link>], job: usize) -> bool {
    links.iter().enumerate().any(|(at, link)| at / 4 == job
        && link.as_ref().is_some_and(|link| link.is_used()))
}

// The first port of this job on which another program listens.
fn taken_port<R: Net>(net: &R, ports: &[Option<[u16; 5]>], job: usize) -> Option<u16> {
    match ports.get(job) {
        Some(Some(five)) => five.iter().copied().find(|port| is_taken(net, *port)),
        _ => None,
    }
}

// A child that a signal ended has the status that a shell gives it.
fn number_of(status: ExitStatus) -> i32 {
    match status.code() {
        Some(code) => code,
        None => 128i32.saturating_add(status.signal().unwrap_or(0)),
    }
}

// Ends the child in a slot, and frees the slot.
fn end_at<R: Clock, P: OpenProcess + Drop>(
    clock: &R,
    children: &mut Vec<Option<Child<P>>>,
    at: usize,
) {
    if let Some(slot) = children.get_mut(at) {
        if let Some(mut child) = slot.take() {
            end_child(clock, &mut child);
        }
    }
}

// Takes the child in; it has 50 ms to end by itself, and is killed after that.
fn end_child<R: Clock, P: OpenProcess>(clock: &R, child: &mut Child<P>) {
    for _ in 0..LOOKS {
        if status_of(child).is_some() {
            return;
        }
        clock.sleep(Duration::from_millis(APART));
    }
    if child.kill().is_ok() {
        let _ = child.wait();
    }
}
