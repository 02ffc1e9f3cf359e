//! Sets what was read.

ghost use Rattle.std.specs.Prelude.{Some, unwrap_or, Option, Result, Ok};
ghost use Rattle.sim_base.specs.Refusals as steps;
ghost use Rattle.shd_config.specs.declared.fault.ConfigFault.{ConfigFault};
ghost use Rattle.shd_config.specs.Steps.{Gives, Sets};

use crate::fault::ConfigError;

/// Sets a place to what was read.
pub fn set<T: Drop>(place: &mut T, read: Result<T, ConfigError>) -> Result<(), ConfigError>
    ensures { (told : Result T ConfigFault) → Gives read told → Sets result place.new told }
{
    *place = read?;
    Ok(())
}

/// Sets a place to what was read, which is there then.
pub fn set_some<T: Drop>(
    place: &mut Option<T>,
    read: Result<T, ConfigError>,
) -> Result<(), ConfigError>
    ensures { (told : Result T ConfigFault) → Gives read told → Sets result place.new (steps.◌>>=◌ told (λ v. Ok (Some v))) }
{
    *place = Some(read?);
    Ok(())
}

/// Sets a place to what was read, or to a value that stands for what is absent.
pub fn set_or<T: Drop>(
    place: &mut T,
    read: Result<Option<T>, ConfigError>,
    absent: T,
) -> Result<(), ConfigError>
    ensures { (told : Result (Option T) ConfigFault) → Gives read told → Sets result place.new (steps.◌>>=◌ told (λ v. Ok (unwrap_or v absent))) }
{
    *place = read?.unwrap_or(absent);
    Ok(())
}
