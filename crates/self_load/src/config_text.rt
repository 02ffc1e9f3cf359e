//! The text of a self-load's configuration.

ghost use Rattle.std.specs.Prelude.{◌≡◌, ◌≤◌, IfOk};
ghost use Rattle.sim_base.specs.Limits.{most_ring_hosts};
ghost use Rattle.config_lines.specs.Shown.{shown};
ghost use Rattle.shd_config.specs.declared.overrides.Overrides.{Overrides};
ghost use Rattle.shown_config.specs.Same.{no_overrides};
ghost use Rattle.run_plan.specs.SelfLoad.{self_load_config};
ghost use Rattle.self_load.specs.Means.{SaysConfig};

use base_texts::Text;
use config_lines::show_into;
use run_plan::self_load_config;
use shd_config::Overrides;
use sim_base::NoMemory;
use std::alloc::Global;

/// The text that shows the configuration of a ring of hosts.
fn shown_text(alloc: Global, hosts: u32) -> Result<Text, NoMemory>
    requires some { 2 ≤ hosts }
    requires few { hosts ≤ most_ring_hosts }
    ensures { IfOk result (λ text. text ≡ shown (self_load_config no_overrides hosts)) }
{
    let overrides = Overrides {
        seed: None,
        parallelism: None,
        data_directory: None,
        stop_time: None,
    };
    let config = self_load_config(alloc, &overrides, hosts)?;
    let mut text = Text::new(alloc);
    show_into(&config, &mut text)?;
    Ok(text)
}

/// A text that reads as the configuration of a self-load, whatever is overridden.
pub fn config_text(alloc: Global, hosts: u32) -> Result<Text, NoMemory>
    requires some { 2 ≤ hosts }
    requires few { hosts ≤ most_ring_hosts }
    ensures { IfOk result (λ text. (o : Overrides) → SaysConfig text o (self_load_config o hosts)) }
{
    shown_text(alloc, hosts)
}
