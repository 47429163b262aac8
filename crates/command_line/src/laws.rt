//! Laws of what command lines ask for, without code.
ghost use Rattle.std.specs.Prelude.{[], codes};
ghost use Rattle.clap.specs.Words.{App};
ghost use Rattle.command_line.specs.CommandLines.{IsProgram};
ghost use Rattle.command_line.specs.Examples.{AreExamples, AreOwnExamples, own_flags};

/// Worked command lines: the options that they ask for, or the kind of error that they are told.
pub fn reads_command_lines()
    ensures { (program : App) → IsProgram (codes "mvt") [] program → AreExamples program }
{}

/// Worked command lines of a program with two options of its own.
pub fn reads_own_options()
    ensures { (program : App) → IsProgram (codes "mvt-play") own_flags program → AreOwnExamples program }
{}
