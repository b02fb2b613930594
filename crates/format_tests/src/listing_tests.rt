use crate::expect::same_bytes;
use crate::sample::sample;
use inspect::list_state as list;
use std::alloc::Global;

const LINES: &str = "epoch 3 records 12
space 1
name 00000100 00030000 port 1 refs 2
name 00000101 80010000 port 2 refs 3
name 00000102 00080000 port 0 refs 1
port 1 held 1 00000100 send 3 once 1 queue 1 of 5 seqno 1 mscount 4
port 2 carried 1 send 1 once 0 queue 0 of 16 seqno 0 mscount 0
";

fn listed(alloc: Global) -> Option<Vec<u8>> {
    let state = sample(alloc)?;
    let mut encoding = Vec::new(alloc);
    let done = list(alloc, 3, 12, &state, &mut encoding);
    drop(state);
    done.ok()?;
    Some(encoding)
}

#[test]
fn lines_of_a_state(rt: HostRuntime) {
    same_bytes(&rt, listed(rt.alloc()), LINES.as_bytes());
}
