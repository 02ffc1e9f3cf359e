//! The lines of a round, in the order of the events that they are from.
ghost use Rattle.std.specs.Prelude.{◌≡◌, List, OnOk, map};
ghost use Rattle.host_link.specs.declared.line.Line.{Line as LineRecord};
ghost use Rattle.host_state.specs.Running.{kept_line};
ghost use Rattle.world_order.specs.Round.{in_order};
ghost use Rattle.world_order.specs.World as order;

use host_link::Logged;
use sim_base::NoMemory;

/// From so many lines on their keys are put in order beside them, and each line is moved once.
const MANY: usize = 64;

/// Puts many lines in the order of their keys; those of one key stay in theirs.
fn merge_many(lines: &mut Vec<Logged>) -> Result<(), NoMemory>
    ensures { OnOk result ((all : List (order.Logged LineRecord)) → lines.old.items ≡ map kept_line all → lines.new.items ≡ map kept_line (in_order all)) }
{
    lines.sort_by_cached_key(|line| line.key)?;
    Ok(())
}

/// Puts lines in the order of their keys; those of one key stay in theirs.
pub(crate) fn merge(lines: &mut Vec<Logged>) -> Result<(), NoMemory>
    ensures { OnOk result ((all : List (order.Logged LineRecord)) → lines.old.items ≡ map kept_line all → lines.new.items ≡ map kept_line (in_order all)) }
{
    if lines.len() >= MANY {
        return merge_many(lines);
    }
    lines.sort_by_key(|line| line.key)?;
    Ok(())
}
