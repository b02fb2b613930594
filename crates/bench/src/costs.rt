//! The cost of each kind of call as the state grows: with ports, names of the same space, spaces and messages.

use crate::Fault;
use crate::context::Context;
use crate::turns::{CostLine, Machine, Placed, print_row};
use crate::ways::{CLIENT, HERE, NEXT};

/// The calls that are measured.
static ROWS: [CostLine<'static>; 10] = [
    // A new port, and its end.
    CostLine {
        label: "",
        parts: &[
            ("allocate", HERE, "allocate receive", 0, 10),
            ("destroy", HERE, "destroy #", 0x10c, 10),
        ],
        rounds: 100,
        is_done: true,
    },
    // One more send right under a name, and one less.
    CostLine {
        label: "",
        parts: &[
            (
                "insert_right",
                HERE,
                "insert_right 0x100 0x100 make_send",
                0,
                10,
            ),
            ("deallocate", HERE, "deallocate 0x100", 0, 10),
        ],
        rounds: 200,
        is_done: true,
    },
    // A send-once right under a new name, and its end, for which a notice is sent.
    CostLine {
        label: "",
        parts: &[
            (
                "insert_right under a new name",
                HERE,
                "insert_right # 0x100 make_send_once",
                0x10c,
                10,
            ),
            (
                "deallocate of a last right, with a notice",
                HERE,
                "deallocate #",
                0x10c,
                10,
            ),
            (
                "receipt of that notice",
                HERE,
                "receive 0x100 limit 100",
                0,
                10,
            ),
        ],
        rounds: 100,
        is_done: true,
    },
    CostLine {
        label: "",
        parts: &[
            ("space_create", HERE, "space_create 0x100 make_send", 0, 1),
            ("deallocate of a last right", NEXT, "deallocate 0x100", 0, 1),
            ("space_destroy", NEXT, "space_destroy", 0, 1),
        ],
        rounds: 500,
        is_done: true,
    },
    CostLine {
        label: "",
        parts: &[
            (
                "extract_right",
                HERE,
                "extract_right 0x100 make_send",
                0,
                10,
            ),
            ("", HERE, "deallocate 0x100", 0, 10),
        ],
        rounds: 200,
        is_done: true,
    },
    CostLine {
        label: "",
        parts: &[
            ("", HERE, "allocate receive", 0, 1),
            (
                "request_notification",
                HERE,
                "request_notification # dead_name 0 0x10c make_send_once",
                0x101,
                10,
            ),
            ("", HERE, "destroy 0x10c", 0, 1),
        ],
        rounds: 100,
        is_done: true,
    },
    // Calls that undo an earlier call, or change nothing.
    CostLine {
        label: "",
        parts: &[
            ("mod_refs, one more", HERE, "mod_refs 0x100 send 1", 0, 10),
            ("mod_refs, one less", HERE, "mod_refs 0x100 send -1", 0, 10),
            ("rename", HERE, "rename 0x100 0x300", 0, 1),
            ("", HERE, "rename 0x300 0x100", 0, 1),
            (
                "move_member, out of the set",
                HERE,
                "move_member # 0x0",
                0x101,
                10,
            ),
            (
                "move_member, into it",
                HERE,
                "move_member # 0x200",
                0x101,
                10,
            ),
            (
                "get_set_status of 10 members",
                HERE,
                "get_set_status 0x200",
                0,
                10,
            ),
            (
                "get_receive_status",
                HERE,
                "get_receive_status 0x100",
                0,
                10,
            ),
            ("type", HERE, "type 0x100", 0, 10),
            ("get_refs", HERE, "get_refs 0x100 send", 0, 10),
            ("set_qlimit", HERE, "set_qlimit 0x100 5", 0, 10),
            ("set_mscount", HERE, "set_mscount 0x100 9", 0, 10),
            ("set_seqno", HERE, "set_seqno 0x100 0", 0, 10),
            ("attach", HERE, "attach 2", 0, 10),
        ],
        rounds: 100,
        is_done: true,
    },
    CostLine {
        label: "",
        parts: &[
            ("refused allocate", HERE, "allocate 9", 0, 10),
            (
                "refused insert_right",
                HERE,
                "insert_right 0x200 0x100 make_send",
                0,
                10,
            ),
            ("refused deallocate", HERE, "deallocate 0x1ff", 0, 10),
            ("refused destroy", HERE, "destroy 0x1ff", 0, 10),
            ("refused mod_refs", HERE, "mod_refs 0x1ff send 1", 0, 10),
            (
                "refused extract_right",
                HERE,
                "extract_right 0x1ff make_send",
                0,
                10,
            ),
            (
                "refused request_notification",
                HERE,
                "request_notification 0x1ff dead_name 0 0x0 0",
                0,
                10,
            ),
            ("refused rename", HERE, "rename 0x1ff 0x300", 0, 10),
            (
                "refused move_member",
                HERE,
                "move_member 0x1ff 0x200",
                0,
                10,
            ),
            (
                "refused get_set_status",
                HERE,
                "get_set_status 0x100",
                0,
                10,
            ),
            (
                "refused space_create",
                HERE,
                "space_create 0x1ff make_send",
                0,
                10,
            ),
            ("refused send", HERE, "send copy_send 0x1ff id 7", 0, 10),
            ("refused receive", HERE, "receive 0x1ff limit 100", 0, 10),
            (
                "receive where no message is",
                HERE,
                "receive 0x100 limit 100",
                0,
                10,
            ),
            ("refused names, of no space", NEXT, "names", 0, 10),
        ],
        rounds: 100,
        is_done: false,
    },
    // The cost of this call grows with the number of names.
    CostLine {
        label: "",
        parts: &[("names of the space", HERE, "names", 0, 1)],
        rounds: 20,
        is_done: true,
    },
    // A row of its own, because a walk over 4,096 names displaces almost everything else from the processor's cache.
    CostLine {
        label: "",
        parts: &[("names of 2 names", CLIENT, "names", 0, 10)],
        rounds: 100,
        is_done: true,
    },
];

/// Prints the cost of the calls in each row.
pub(crate) fn print_costs<M: Machine>(
    context: &Context<'_>,
    machines: &mut [Placed<M>],
) -> Result<(), Fault> {
    context.print_row(
        "nanoseconds of a call, and how many times as long beside more",
        &[],
        &[],
    );
    for row in &ROWS {
        print_row(context, machines, row, 1)?;
    }
    Ok(())
}
