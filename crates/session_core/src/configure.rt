//! The statements of the configuration.
ghost use Rattle.std.specs.Prelude.{◌≡◌, [], Err, IfErr, IfOk, Some, false, true};
ghost use Rattle.config_core.specs.Configs.{config_fault, nothing_configured};
ghost use Rattle.session_core.specs.Configuring.{IsConfiguredBy, late_in};
ghost use Rattle.session_core.specs.Outcomes.{IsOutcome, is_write_fault};
ghost use Rattle.session_core.specs.Sessions.{session_behind, told, unless_late};
ghost use Rattle.run_options.specs.declared.Options.{Options};
ghost use Rattle.session_core.specs.declared.SessionEnd.{SessionEnd};

use crate::SessionFault;
use crate::laws::configuration_has_a_machine;
use config_core::config::{Config, ConfigError};
use machine_meaning::config::ConfigFault;
use session_input::statement::ConfigStatement;
use session_text::fault::Fault;
use session_text::statement::{Says, Statement};

fn told(fault: ConfigFault) -> Fault
    ensures { result ≡ told fault }
{
    match fault {
        ConfigFault::BadValue => Fault::BadValue,
        ConfigFault::DefinedTwice => Fault::DefinedTwice,
    }
}

/// The fault of a statement of the configuration that stands behind the first event. The configuration stays.
fn late_fault(config: &mut Config, statement: &ConfigStatement<'_>, has_end: bool) -> Fault
    ensures fault { unless_late (config_fault config.old statement.now) has_end true ≡ Some result }
    ensures same { config.new ≡ config.old }
{
    match config.fault(statement) {
        Some(fault) => told(fault),
        None if has_end => Fault::LateConfiguration,
        None => Fault::NoEnd,
    }
}

/// The fault of the first of these statements that is configuration, if one is, where they stand behind the first event. The configuration stays.
pub(crate) fn late_in(config: &mut Config, statements: &[Statement<'_>]) -> Option<Fault>
    ensures late { result ≡ late_in config.old statements.now }
    ensures same { config.new ≡ config.old }
{
    for statement in statements {
        if let Says::Config {
            statement: says,
            has_end,
        } = &statement.says
        {
            return Some(late_fault(config, says.get(), *has_end));
        }
    }
    None
}

/// Adds what the statements before the first event configure, and tells where that stands.
pub(crate) fn configure(
    config: &mut Config,
    statements: &[Statement<'_>],
) -> Result<usize, SessionFault>
    requires { config.old ≡ nothing_configured }
    ensures ok { IfOk result (λ at. IsConfiguredBy statements.now at config.new) }
    ensures err { IfErr result (λ fault. (o : Options) → IsOutcome {T = SessionEnd} o (session_behind [] statements.now) (Err fault) []) }
    ensures writes_none { is_write_fault result ≡ false }
{
    configuration_has_a_machine();
    for (at, statement) in statements.iter().enumerate() {
        config.is_configured();
        let line = statement.line;
        match &statement.says {
            Says::Events(_, _) => return Ok(at),
            Says::Refused(fault) => return Err(SessionFault::Stopped(*fault, line)),
            Says::Config {
                statement: says,
                has_end,
            } => match config.add(says.get()) {
                Ok(()) if *has_end => {}
                Ok(()) => return Err(SessionFault::Stopped(Fault::NoEnd, line)),
                Err(ConfigError::Refused(fault)) => {
                    return Err(SessionFault::Stopped(told(fault), line));
                }
                Err(ConfigError::Memory) => return Err(SessionFault::Memory),
            },
        }
    }
    Ok(statements.len())
}
