//! Ports: two runs on one machine share none.
use crate::worlds::{Real, real_world, start_script, status};
use std::process::Abort;
use std::test::Fail;
use std::{env, fs};
use world::{Kids, Wire};

/// Draws the ports of 16 jobs.
fn draw(rt: &HostRuntime, w: &mut Real) -> Result<Vec<u16>, Fail> {
    let mut ports = Vec::new(rt.alloc());
    for job in 0..16u8 {
        for port in w.free_ports(job).ok_or("no ports")? {
            ports.push(port)?;
        }
    }
    Ok(ports)
}

#[test]
fn two_runs_in_turn_share_no_port(rt: HostRuntime) -> Result<(), Fail> {
    for round in 0..10u8 {
        let mut first = real_world(&rt)?;
        let mut second = real_world(&rt)?;
        let ours = draw(&rt, &mut first)?;
        let theirs = draw(&rt, &mut second)?;
        for port in theirs.iter() {
            assert!(rt; !ours.contains(port), "round {round}: {port}");
            assert!(rt; 10_000 < *port && *port < 32_768, "{port}");
        }
    }
    Ok(())
}

/// As a program of its own, with a path behind its test's name: writes down the ports of 16 jobs.
/// As a test it does nothing.
#[test]
fn writes_its_ports(rt: HostRuntime) -> Result<(), Fail> {
    let mut args = env::args(&rt)?;
    args.next();
    args.next();
    let Some(path) = args.next() else {
        return Ok(());
    };
    let mut w = real_world(&rt)?;
    let mut bytes = Vec::new(rt.alloc());
    for port in draw(&rt, &mut w)? {
        bytes.extend_from_slice(&port.to_be_bytes())?;
    }
    fs::write(&rt, path.as_str(), bytes.as_slice())?;
    Ok(())
}

#[test]
fn two_processes_share_no_port(rt: HostRuntime) -> Result<(), Fail> {
    let program = env::args(&rt)?.next().ok_or("no name")?;
    let program = program.as_str();
    let script = format!(in rt.alloc(); "exec {program} ports::writes_its_ports their-ports")?;
    let mut w = real_world(&rt)?;
    let ours = draw(&rt, &mut w)?;
    assert!(rt; start_script(&rt, &mut w, 0, script.as_str())?);
    assert_eq!(rt; status(&mut w, 0), Some(0));
    w.end(0);
    let theirs = fs::read(&rt, "their-ports")?;
    assert_eq!(rt; theirs.len(), 160);
    for bytes in theirs.as_slice().chunks_exact(2) {
        let port = u16::from(bytes[0]) * 256 + u16::from(bytes[1]);
        assert!(rt; !ours.contains(&port), "{port}");
    }
    fs::remove_file(&rt, "their-ports")?;
    Ok(())
}
