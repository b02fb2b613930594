use crate::expect::same;
use crate::names::{add_space, hold, remove};
use codes::MAX_NAMES;
use spaces::Spaces;

/// Number of spaces that are filled.
const SPACES: u32 = 16;

/// Puts a send right to port 7 under the least unused name of a space, and commits that. Names that were removed since
/// the last commit or rollback are skipped one by one.
fn hand_out(spaces: &mut Spaces, space: u32) -> Option<u32> {
    let name = spaces.free_name(space);
    hold(spaces, space, name, 7, None)?;
    spaces.commit();
    Some(name)
}

/// Puts rights under the maximum number of names.
fn fill(spaces: &mut Spaces, space: u32) -> Option<()> {
    for _name in 0..MAX_NAMES {
        hand_out(spaces, space)?;
    }
    Some(())
}

/// Two names of a full space were removed; and the names that are given to rights then.
type Again = ([Option<()>; 2], [Option<u32>; 2]);

fn handed_out_again(spaces: &mut Spaces, space: u32) -> Again {
    (
        [remove(spaces, space, 0x1000), remove(spaces, space, 0x800)],
        [hand_out(spaces, space), hand_out(spaces, space)],
    )
}

/// Fills a space. Returns the number of its names, and those that are given to rights again.
fn filled_once(spaces: &mut Spaces, space: u32) -> Option<(usize, Again)> {
    add_space(spaces, space)?;
    fill(spaces, space)?;
    let most = spaces.name_count(space);
    Some((most, handed_out_again(spaces, space)))
}

const WANTED: (usize, Again) = (MAX_NAMES, ([Some(()); 2], [Some(0x800), Some(0x1000)]));

/// Returns the number of spaces in which the least unused names were given to rights again, and the number of send
/// rights to port 7 then.
fn filled(spaces: &mut Spaces) -> Option<(u32, u64)> {
    let mut right: u32 = 0;
    for space in 1..=SPACES {
        if filled_once(spaces, space)? == WANTED {
            right = right.saturating_add(1);
        }
    }
    Some((right, spaces.sends(7)))
}

#[test]
fn spaces_are_filled_and_names_handed_out_again(rt: HostRuntime) {
    let mut spaces = Spaces::new(rt.alloc());
    let seen = filled(&mut spaces);
    drop(spaces);
    same(&rt, seen, Some((SPACES, 65536)));
}
