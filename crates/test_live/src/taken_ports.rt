//! A kernel whose port another program takes.
use crate::kernels::write_kernel;
use crate::programs::{Wanted, leaves};
use std::net::{Ipv4Addr, SocketAddr, TcpListener};
use std::process::Abort;
use std::rt::Clock;
use std::test::Fail;
use std::time::Duration;
use std::{env, fs};
use toy_host::connection_in;

/// Ends with status 3 once another program listens on its shell port.
const ENDING: &str =
    "$0 taken_ports::holds_a_port $1 taken-sign & until [ -e taken-sign ]; do sleep 0.1; done; exit 3";

/// As a program of its own, with a connection file and a file's path behind its test's name: listens
/// on the shell port for five seconds, and writes the file once it does. As a test it does nothing.
#[test]
fn holds_a_port(rt: HostRuntime) -> Result<(), Fail> {
    let mut args = env::args(&rt)?;
    args.next();
    args.next();
    let (Some(path), Some(sign)) = (args.next(), args.next()) else {
        return Ok(());
    };
    let bytes = fs::read(&rt, path.as_str())?;
    let Some(connection) = connection_in(rt.alloc(), bytes.as_slice())? else {
        return Err("no connection file".into());
    };
    let at = SocketAddr::from((Ipv4Addr::LOCALHOST, connection.ports.shell));
    let held = TcpListener::bind(&rt, at)?;
    fs::write(&rt, sign.as_str(), b"held")?;
    rt.sleep(Duration::from_secs(5));
    drop(held);
    Ok(())
}

#[test]
fn a_port_that_another_program_has_taken_is_told(rt: HostRuntime) -> Result<(), Fail> {
    write_kernel(&rt, "taken", "taken-kernels", ENDING)?;
    let wanted = Wanted {
        status: 8,
        hint: "nbrun: the kernel ended with status 3: another program has taken its port ",
    };
    let words = "taken taken-out --kernel-path taken-kernels";
    let is_told = leaves(&rt, "taken", "", words, &wanted)?;
    fs::remove_dir_all(&rt, "taken-kernels")?;
    for path in ["taken", "taken-out", "taken-sign"] {
        fs::remove_file(&rt, path)?;
    }
    assert!(rt; is_told);
    Ok(())
}
