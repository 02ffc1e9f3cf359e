//! The programs.

ghost use Rattle.std.specs.Prelude.{◌≡◌, fold, map, position, IfSome, IfOk, OnOk};
ghost use Rattle.std.specs.Str.{bytes_eq};
ghost use Rattle.elf_load.specs.Image.{image};
ghost use Rattle.run_plan.specs.File.{reads};
ghost use Rattle.run_plan.specs.Reading.{gives, Meets, CountsSource};
ghost use Rattle.run_plan.specs.Program.{or_elf_fault, program};
ghost use Rattle.run_plan.specs.Programs.{has_path, mentioned, paths_of, programs_of, place_of, images};

use crate::fault::{Fault, ReadStop};
use crate::file::read_file;
use base_texts::Name;
use elf_load::{Image, LoadError};
use run_outside::Source;
use shd_config::{HostConfig, ProcessConfig};
use sim_base::NoMemory;
use std::alloc::Global;

fn has_path(paths: &[Name], path: &Name) -> bool
    ensures { result ≡ has_path paths.now path.now }
{
    paths.contains(path)
}

/// Adds a path that isn't there yet.
fn mention(alloc: Global, known: &mut Vec<Name>, path: &Name) -> Result<(), NoMemory>
    ensures { OnOk result (known.new.items ≡ mentioned known.old.items path.now) }
{
    if !has_path(known, path) {
        known.push(Name::from_str(alloc, path.as_str())?)?;
    }
    Ok(())
}

fn mention_processes(
    alloc: Global,
    known: &mut Vec<Name>,
    processes: &[ProcessConfig],
) -> Result<(), NoMemory>
    ensures { OnOk result (known.new.items ≡ fold mentioned known.old.items (map (λ p. p.path) processes.now)) }
{
    for process in processes {
        mention(alloc, known, &process.path)?;
    }
    Ok(())
}

/// The files of the programs, in document order of first mention.
#[tactic(auto, unfolding(crate::specs::Programs::programs_of))]
pub fn programs_of(alloc: Global, hosts: &[HostConfig]) -> Result<Vec<Name>, NoMemory>
    ensures { IfOk result (λ v. v.items ≡ programs_of hosts.now) }
{
    let mut known = Vec::new(alloc);
    for host in hosts {
        mention_processes(alloc, &mut known, host.processes.as_slice())?;
    }
    Ok(known)
}

fn find_path(paths: &[Name], path: &Name) -> Option<usize>
    ensures { result ≡ position (bytes_eq path.now) paths.now }
{
    paths.iter().position(|known| *path == *known)
}

/// The place of a path among some.
pub fn place_of(paths: &[Name], path: &Name) -> usize
    ensures { result ≡ place_of paths.now path.now }
{
    match find_path(paths, path) {
        Some(place) => place,
        None => 0,
    }
}

/// The image in some bytes of a program's file.
fn parse_image(alloc: Global, path: &str, bytes: &[u8]) -> Result<Image, ReadStop>
    ensures { Meets (λ i. i) (gives (or_elf_fault path.now (image bytes.now))) result }
{
    match elf_load::load(alloc, bytes) {
        Ok(image) => Ok(image),
        Err(LoadError::Fault(fault)) => {
            let path = Name::from_str(alloc, path)?;
            Err(ReadStop::Refused(Fault::Elf(path, fault)))
        }
        Err(LoadError::NoMemory) => Err(ReadStop::NoMemory),
    }
}

/// The image in a program's file.
#[tactic(auto, unfolding(crate::specs::Program::program))]
fn read_program<S: Source>(alloc: Global, source: &mut S, path: &str) -> Result<Image, ReadStop>
    ensures told { IfSome (S.held source.old) (λ held. Meets (λ i. i) (reads path.now (program held path.now)) result) }
    ensures same { S.held source.new ≡ S.held source.old }
    ensures count { CountsSource result (S.faults source.old) (S.faults source.new) }
{
    let bytes = read_file(alloc, source, path)?;
    parse_image(alloc, path, &bytes)
}

/// The images in the files of programs, one file after another.
pub fn read_images<S: Source>(
    alloc: Global,
    source: &mut S,
    paths: &[Name],
) -> Result<Vec<Image>, ReadStop>
    ensures told { IfSome (S.held source.old) (λ held. Meets (λ v. v.items) (images held paths.now) result) }
    ensures same { S.held source.new ≡ S.held source.old }
    ensures count { CountsSource result (S.faults source.old) (S.faults source.new) }
{
    let mut all = Vec::new(alloc);
    for path in paths {
        let image = read_program(alloc, source, path.as_str())?;
        all.push(image)?;
    }
    Ok(all)
}
