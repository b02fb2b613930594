use crate::expect::same;
use crate::sample::add_port;
use codes::MAX_PORTS;
use ports::Ports;

/// Makes the maximum number of ports, and returns the first serial.
fn fill(ports: &mut Ports) -> Option<u64> {
    let first = ports.next_serial();
    for _port in 0..MAX_PORTS {
        add_port(ports)?;
    }
    ports.commit();
    Some(first)
}

/// Makes the maximum number of ports die, from this serial on.
fn bury_all(ports: &mut Ports, first: u64) -> Option<()> {
    for port in 0..MAX_PORTS as u64 {
        ports.bury(first.wrapping_add(port)).ok()?;
    }
    ports.commit();
    Some(())
}

/// The first serial, the number of live ports, a flag that no more could have been made, and the number of live ports
/// then.
type Round = (u64, usize, bool, usize);

/// Makes the maximum number of ports, which then die.
fn round(ports: &mut Ports) -> Option<Round> {
    let first = fill(ports)?;
    let (most, full) = (ports.len(), ports.is_full());
    bury_all(ports, first)?;
    Some((first, most, full, ports.len()))
}

#[test]
fn all_ports_are_made_and_destroyed_twice(rt: HostRuntime) {
    let mut ports = Ports::new(rt.alloc());
    let seen = [round(&mut ports), round(&mut ports)];
    drop(ports);
    let wanted = [Some((1, 16384, true, 0)), Some((16385, 16384, true, 0))];
    same(&rt, seen, wanted);
}
