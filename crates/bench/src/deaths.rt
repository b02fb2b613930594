//! The cost of a port's death, by the number of names with rights to it, with a notice for each or with none.

use crate::Fault;
use crate::context::Context;
use crate::turns::{CostLine, Machine, Placed, print_row};
use crate::ways::HERE;

/// The deaths that are measured: the number of holders, each a name with a send-once right; the number of them whose
/// death sends a notice to another port; and the number of deaths in a turn.
static DEATHS: [(&str, u32, u32, u64); 6] = [
    ("1 holder", 1, 0, 100),
    ("10 holders", 10, 0, 50),
    ("1,000 holders", 1_000, 0, 1),
    ("1 holder with a notice", 1, 1, 100),
    ("10 holders with notices", 10, 10, 50),
    ("1,000 holders with notices", 1_000, 1_000, 1),
];

/// Measures a death, and prints the result.
fn print_death<M: Machine>(
    context: &Context<'_>,
    machines: &mut [Placed<M>],
    death: &(&'static str, u32, u32, u64),
) -> Result<(), Fault> {
    let (label, holders, notices, rounds) = *death;
    let parts = [
        ("", HERE, "allocate_name receive #", 0x300, 2),
        (
            "",
            HERE,
            "insert_right # 0x300 make_send_once",
            0x3000,
            holders,
        ),
        (
            "",
            HERE,
            "request_notification # dead_name 0 0x301 make_send_once",
            0x3000,
            notices,
        ),
        (label, HERE, "destroy 0x300", 0, 1),
        ("", HERE, "destroy #", 0x3000, holders),
        ("", HERE, "destroy 0x301", 0, 1),
    ];
    let row = CostLine {
        label: "",
        parts: &parts,
        rounds,
        is_done: true,
    };
    print_row(context, machines, &row, 1)
}

/// Prints the cost of deaths.
pub(crate) fn print_deaths<M: Machine>(
    context: &Context<'_>,
    machines: &mut [Placed<M>],
) -> Result<(), Fault> {
    context.print_row(
        "nanoseconds of a port's death, and how many times as long beside more",
        &[],
        &[],
    );
    for death in &DEATHS {
        print_death(context, machines, death)?;
    }
    Ok(())
}
