//! A clock that is set while a run goes on.
use std::cell::Cell;
use std::io;
use std::rt::Clock;
use std::test::Fail;
use std::time::Duration;
use world_real::Moment;

/// Two clocks whose milliseconds a test sets.
#[derive(Drop)]
struct SetClocks {
    wall: Cell<u64>,
    monotonic: Cell<u64>,
}

impl Clock for SetClocks {
    fn monotonic(&self) -> io::Result<Duration> {
        Ok(Duration::from_millis(self.monotonic.get()))
    }

    fn since_1970(&self) -> io::Result<Duration> {
        Ok(Duration::from_millis(self.wall.get()))
    }
}

#[test]
fn a_clock_that_is_set_changes_no_moment(rt: HostRuntime) -> Result<(), Fail> {
    let clocks = SetClocks {
        wall: Cell::new(1_600_000_000_000),
        monotonic: Cell::new(5000),
    };
    let mut moment = Moment::start();
    moment.look(&clocks);
    assert_eq!(rt; moment.ms(), 1_600_000_000_000);
    let rows = [
        (0, 6500, 1_600_000_001_500),
        (1_600_003_600_000, 6500, 1_600_000_001_500),
        (1_500_000_000_000, 65_000, 1_600_000_060_000),
        (1_500_000_000_000, 64_000, 1_600_000_060_000),
    ];
    for (wall, monotonic, ms) in rows {
        clocks.wall.set(wall);
        clocks.monotonic.set(monotonic);
        moment.look(&clocks);
        assert_eq!(rt; moment.ms(), ms, "{wall} {monotonic}");
    }
    Ok(())
}
