//! A configuration on the output.

ghost use Rattle.std.specs.Prelude.{IfSome, IfOk};
ghost use Rattle.run_outside.specs.Tally.{CountsWrites};
ghost use Rattle.run_answers.specs.Answers.{IsSmall};
ghost use Rattle.run_answers.specs.Puts.{ShowsConfig};

use crate::answer::Answer;
use base_texts::Text;
use config_lines::show_into;
use run_outside::{Sink, SinkTarget, WriteError, put_all};
use shd_config::Config;
use std::alloc::Global;

/// Puts a configuration on the output.
pub fn show_config<K: Sink>(
    alloc: Global,
    sink: &mut K,
    config: &Config,
) -> Result<Answer, WriteError>
    ensures told { IfSome (K.content sink.old) (λ c. ShowsConfig config.now c (K.content sink.new) result) }
    ensures status { IfOk result IsSmall }
    ensures count { CountsWrites result (K.tally sink.old) (K.tally sink.new) }
{
    let mut text = Text::new(alloc);
    show_into(config, &mut text)?;
    put_all(sink, &SinkTarget::Out, text.as_bytes())?;
    Ok(Answer::Status(0))
}
