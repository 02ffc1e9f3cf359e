//! The run that rounds are played over: a self-load of two hosts.

ghost use Rattle.std.specs.Prelude.{◌≡◌, map, string_bytes, IfOk, Ok};
ghost use Rattle.memory_outside.specs.MemSource.{mem_files};
ghost use Rattle.run_plan.specs.Planned.{planned};
ghost use Rattle.run_plan.specs.declared.planned.Planned.TheVariants.{Runs};
ghost use Rattle.schedule_tests.specs.inside.Played.{MayBegin};

use memory_outside::MemSource;
use run_plan::laws::one_plan;
use run_plan::{Planned, Run, read_plan};
use std::alloc::Global;
use std::test::Fail;
use std::thread::Threads;

/// The words of the command line.
fn words(alloc: Global) -> Result<Vec<String>, Fail> {
    let mut words = Vec::new(alloc);
    for word in ["shadow", "--self-load", "2"] {
        words.push(String::from_str(alloc, word)?)?;
    }
    Ok(words)
}

/// The run that is planned.
fn read_run(
    rt: &(impl Threads + Sync + AllocGlobal),
    words: &[String],
    source: &mut MemSource,
) -> Result<Run, Fail>
    ensures may { IfOk result MayBegin }
    ensures told { IfOk result (λ run. (planned (map string_bytes words.now) (mem_files source.old)).answers (Ok (Runs run))) }
    ensures same { mem_files source.new ≡ mem_files source.old }
{
    match read_plan(rt, rt.alloc(), words, source, 1) {
        Ok(Planned::Runs(run)) => Ok(run),
        Ok(_) => Err(Fail::new("no run")),
        Err(_) => Err(Fail::new("no plan")),
    }
}

/// The run that is planned, twice.
pub fn read_twice(rt: &(impl Threads + Sync + AllocGlobal)) -> Result<(Run, Run), Fail>
    ensures may { IfOk result (λ runs. MayBegin runs.0) }
    ensures same { IfOk result (λ runs. runs.0 ≡ runs.1) }
{
    one_plan();
    let list = words(rt.alloc())?;
    let words = list.as_slice();
    let mut source = MemSource::new(rt.alloc());
    let first = read_run(rt, words, &mut source)?;
    let second = read_run(rt, words, &mut source)?;
    Ok((first, second))
}
