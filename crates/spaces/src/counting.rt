// Counts of the rights under names.
ghost use Rattle.std.specs.Prelude.{◌≡◌, ◌<◌, ◌^◌, OnOk};
ghost use Rattle.spaces.specs.Counting.{AreWords, IsWordIfSome, entry_fewer, entry_more, send_fewer, send_more, target_fewer, target_more};

use ipc_model::{Entry, RightKind};
use port_indexes::PairCounts;
use std::alloc::AllocError;

/// Replaces the rights of a name's former entry in the counts by those of its new one.
pub(crate) fn count_anew(
    counts: &mut PairCounts,
    former: Option<Entry>,
    entry: Option<Entry>,
) -> Result<(), AllocError>
    ensures ok { OnOk result (counts.new.current ≡ entry_fewer (entry_more counts.old.current entry) former) }
    ensures before { counts.new.before ≡ counts.old.before }
{
    count(counts, entry)?;
    discount(counts, former)?;
    Ok(())
}

/// Adds the rights of an entry, and the target of its request, to the counts.
fn count(counts: &mut PairCounts, entry: Option<Entry>) -> Result<(), AllocError>
    ensures ok { OnOk result (counts.new.current ≡ entry_more counts.old.current entry) }
    ensures before { counts.new.before ≡ counts.old.before }
{
    match entry {
        Some(Entry::Port(rights)) => {
            count_send(counts, rights.send, rights.port)?;
            count_target(counts, rights.dead_name_target)?;
            Ok(())
        }
        Some(
            Entry::SendOnce {
                port,
                dead_name_target,
            },
        ) => {
            counts.add_right(RightKind::SendOnce, port)?;
            count_target(counts, dead_name_target)?;
            Ok(())
        }
        Some(Entry::Set | Entry::Dead { .. }) | None => Ok(()),
    }
}

/// Subtracts the rights of an entry, and the target of its request, from the counts.
fn discount(counts: &mut PairCounts, entry: Option<Entry>) -> Result<(), AllocError>
    ensures ok { OnOk result (counts.new.current ≡ entry_fewer counts.old.current entry) }
    ensures before { counts.new.before ≡ counts.old.before }
{
    match entry {
        Some(Entry::Port(rights)) => {
            discount_target(counts, rights.dead_name_target)?;
            discount_send(counts, rights.send, rights.port)?;
            Ok(())
        }
        Some(
            Entry::SendOnce {
                port,
                dead_name_target,
            },
        ) => {
            discount_target(counts, dead_name_target)?;
            counts.subtract_right(RightKind::SendOnce, port)?;
            Ok(())
        }
        Some(Entry::Set | Entry::Dead { .. }) | None => Ok(()),
    }
}

/// Proves that the serials in an entry fit 64 bits. It does nothing else.
pub(crate) fn are_words(entry: Option<Entry>)
    ensures { AreWords entry }
{
    match entry {
        Some(Entry::Port(rights)) => {
            is_word(rights.port);
            is_word_if_some(rights.dead_name_target);
        }
        Some(
            Entry::SendOnce {
                port,
                dead_name_target,
            },
        ) => {
            is_word(port);
            is_word_if_some(dead_name_target);
        }
        Some(Entry::Set | Entry::Dead { .. }) | None => {}
    }
}

fn is_word(serial: u64)
    ensures { serial < 2 ^ 64 }
{
    let _ = serial;
}

fn is_word_if_some(target: Option<u64>)
    ensures { IsWordIfSome target }
{
    if let Some(serial) = target {
        is_word(serial);
    }
}

fn count_send(counts: &mut PairCounts, references: u32, port: u64) -> Result<(), AllocError>
    ensures ok { OnOk result (counts.new.current ≡ send_more counts.old.current references port) }
    ensures before { counts.new.before ≡ counts.old.before }
{
    if references == 0 {
        return Ok(());
    }
    counts.add_right(RightKind::Send, port)?;
    Ok(())
}

fn discount_send(counts: &mut PairCounts, references: u32, port: u64) -> Result<(), AllocError>
    ensures ok { OnOk result (counts.new.current ≡ send_fewer counts.old.current references port) }
    ensures before { counts.new.before ≡ counts.old.before }
{
    if references == 0 {
        return Ok(());
    }
    counts.subtract_right(RightKind::Send, port)?;
    Ok(())
}

fn count_target(counts: &mut PairCounts, target: Option<u64>) -> Result<(), AllocError>
    ensures ok { OnOk result (counts.new.current ≡ target_more counts.old.current target) }
    ensures before { counts.new.before ≡ counts.old.before }
{
    let Some(serial) = target else {
        return Ok(());
    };
    counts.add_right(RightKind::SendOnce, serial)?;
    Ok(())
}

fn discount_target(counts: &mut PairCounts, target: Option<u64>) -> Result<(), AllocError>
    ensures ok { OnOk result (counts.new.current ≡ target_fewer counts.old.current target) }
    ensures before { counts.new.before ≡ counts.old.before }
{
    let Some(serial) = target else {
        return Ok(());
    };
    counts.subtract_right(RightKind::SendOnce, serial)?;
    Ok(())
}
