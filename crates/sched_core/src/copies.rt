//! A line, once more.
ghost use Rattle.std.specs.Prelude.{◌≡◌};
ghost use Rattle.sched_core.specs.Copies.{unless_risk};

use jcl_plan::entry::JobLine;

/// The same line, but for RISK, whose path would take memory.
pub(crate) fn copied(line: &JobLine) -> Option<JobLine>
    ensures { result ≡ unless_risk line.now }
{
    Some(match line {
        JobLine::Read {
            name,
            class,
            priority,
        } => JobLine::Read {
            name: *name,
            class: *class,
            priority: *priority,
        },
        JobLine::Rejected(cause) => JobLine::Rejected(*cause),
        JobLine::Selected(number) => JobLine::Selected(*number),
        JobLine::Broken(fault) => JobLine::Broken(*fault),
        JobLine::Names(count) => JobLine::Names(*count),
        JobLine::WaitNames { holder, name } => JobLine::WaitNames {
            holder: *holder,
            name: *name,
        },
        JobLine::WaitSpace(serial) => JobLine::WaitSpace(*serial),
        JobLine::Assured { tracks, actions } => JobLine::Assured {
            tracks: *tracks,
            actions: *actions,
        },
        JobLine::Risk { .. } => return None,
        JobLine::TooMany(step) => JobLine::TooMany(*step),
        JobLine::Refused => JobLine::Refused,
        JobLine::Cancelled => JobLine::Cancelled,
        JobLine::Step {
            step,
            name,
            procedure_step,
            fate,
        } => JobLine::Step {
            step: *step,
            name: *name,
            procedure_step: *procedure_step,
            fate: *fate,
        },
        JobLine::Take { dd, name, word } => JobLine::Take {
            dd: *dd,
            name: *name,
            word: *word,
        },
        JobLine::Fault { fault, step, dd } => JobLine::Fault {
            fault: *fault,
            step: *step,
            dd: *dd,
        },
        JobLine::Back { dd, name, word } => JobLine::Back {
            dd: *dd,
            name: *name,
            word: *word,
        },
        JobLine::GetStart { name, serial } => JobLine::GetStart {
            name: *name,
            serial: *serial,
        },
        JobLine::GetData { name, text } => JobLine::GetData {
            name: *name,
            text: *text,
        },
        JobLine::GetEnd { name } => JobLine::GetEnd { name: *name },
        JobLine::PutStart {
            name,
            serial,
            grown,
        } => JobLine::PutStart {
            name: *name,
            serial: *serial,
            grown: *grown,
        },
        JobLine::PutDone { name } => JobLine::PutDone { name: *name },
        JobLine::Code(code) => JobLine::Code(*code),
        JobLine::Abend(abend) => JobLine::Abend(*abend),
        JobLine::Disp { dd, name, word } => JobLine::Disp {
            dd: *dd,
            name: *name,
            word: *word,
        },
        JobLine::Left {
            step,
            dd,
            name,
            word,
        } => JobLine::Left {
            step: *step,
            dd: *dd,
            name: *name,
            word: *word,
        },
        JobLine::End => JobLine::End,
    })
}
