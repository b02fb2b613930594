use crate::expect::same_bytes;
use crate::sample::sample;
use inspect::draw_state as draw;
use std::alloc::Global;

const TEXT: &str = r#"digraph ports {
  rankdir=LR;
  node [shape=box];
  subgraph cluster_1 {
    label="space 1";
    n1_00000100 [label="00000100 00030000 refs 2"];
    n1_00000101 [label="00000101 80010000 refs 3"];
    n1_00000102 [label="00000102 00080000 refs 1"];
  }
  p1 [shape=ellipse, label="port 1\nsend 3 once 1\nqueue 1 of 5\nseqno 1 mscount 4"];
  p2 [shape=ellipse, label="port 2\nsend 1 once 0\nqueue 0 of 16\nseqno 0 mscount 0"];
  n1_00000100 -> p1 [label="receive"];
  n1_00000100 -> p1 [label="send x2"];
  n1_00000101 -> p2 [label="send x3"];
  n1_00000101 -> p1 [label="dead-name request"];
  p1 -> p1 [label="carried send"];
  p1 -> p2 [label="carried receive"];
  p1 -> p1 [label="carried send"];
}
"#;

fn drawn(alloc: Global) -> Option<Vec<u8>> {
    let state = sample(alloc)?;
    let mut encoding = Vec::new(alloc);
    let done = draw(alloc, &state, &mut encoding);
    drop(state);
    done.ok()?;
    Some(encoding)
}

#[test]
fn drawing_of_a_state(rt: HostRuntime) {
    same_bytes(&rt, drawn(rt.alloc()), TEXT.as_bytes());
}
